//! What calls answered and left.
use judge::fault::SheetFault;
use model::rows::{Item, Row};
use model::verdict::Verdict;
use records::fault::CallFault;
use records::sheet::Sheet;
use register::membership::Membership;
use search::answer::Answer;

/// What a call answers.
#[derive(Clone, Copy)]
pub enum Reply {
    Answered(Answer),
    Accepted(Sheet),
    Tested(Membership),
    /// The length of the sheet that was written.
    Wrote(usize),
    /// There was no sheet to write.
    Nothing,
    LookedUp(Option<Verdict>),
    Cleared,
    Refused(CallFault),
    /// A sheet that was refused: its faults are more than those of a call.
    Declined(SheetFault),
}

/// What a call answered, and the rows, the items and the output that it was lent, as it left them.
#[derive(Drop)]
pub struct Entry {
    pub reply: Reply,
    pub rows: Vec<Row>,
    pub items: Vec<Item>,
    pub output: Vec<u8>,
}
