//! Calls on a register.

/// How many rows and items a call is lent.
#[derive(Clone, Copy)]
pub struct Lending {
    pub rows: usize,
    pub items: usize,
}

/// A call. A sheet's or a hedge's text is handed over as a `T`: its bytes, or the name of its file.
/// `Write` writes the sheet of the last question that got a verdict or of the last accepted sheet.
#[derive(Clone, Copy)]
pub enum Call<T> {
    Question {
        left: usize,
        right: usize,
        lent: Lending,
    },
    Sheet {
        text: T,
        lent: Lending,
    },
    Member {
        rule: usize,
        text: T,
        lent: Lending,
    },
    Write {
        room: usize,
    },
    LookUp {
        left: usize,
        right: usize,
    },
    Clear,
}
