// Rows hold inequalities, items spell hedges. Both are lent by the caller of a question, a sheet
// or a membership test.
ghost use Rattle.std.specs.Prelude.{◌≡◌};
ghost use Rattle.model.specs.Blank.{blank_row, blank_item};

use crate::sets::StateSet;

// An inequality: a left state against a set of right states.
#[derive(Clone, Copy, Default, PartialEq, Eq)]
pub struct Row {
    pub left: usize,
    pub right: StateSet,
}

// An item of a hedge: its name, and the numbers of the item that begins the hedge inside it and of
// the one that follows it. Items are numbered from 1; 0 is the empty hedge.
#[derive(Clone, Copy, Default, PartialEq, Eq)]
pub struct Item {
    pub name: usize,
    pub child: usize,
    pub next: usize,
}

impl Row {
    // The blank row: state 0 against the empty set.
    pub fn blank() -> Row
        ensures { result ≡ blank_row }
    {
        Row::default()
    }
}

impl Item {
    // The blank item: three zeros.
    pub fn blank() -> Item
        ensures { result ≡ blank_item }
    {
        Item::default()
    }
}
