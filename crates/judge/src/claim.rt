//! What a sheet makes its claim on.
ghost use Rattle.std.specs.Prelude.{◌≡◌};
ghost use Rattle.theory.specs.Inequality.{row};
ghost use Rattle.model.specs.Sets.{insert};

use model::rows::Row;
use model::sets::StateSet;

/// A pair of rules: the sheet claims that the right one has every hedge of the left, or lacks one.
#[derive(Clone, Copy)]
pub struct Claim {
    pub left: usize,
    pub right: usize,
}

impl Claim {
    /// The inequality that the claim is about.
    pub fn root(self) -> Row
        ensures { result ≡ row self.left (insert 0 self.right) }
    {
        Row {
            left: self.left,
            right: StateSet::empty().with(self.right),
        }
    }
}
