//! The faults of a sheet. A call's fault stands in it whole.
ghost use Rattle.std.specs.Prelude.{◌≡◌};
ghost use Rattle.judge.specs.Faults.{sheet_told};
ghost use Rattle.judge.specs.declared.fault.SheetFault.TheVariants.{Call as in_call};

use records::fault::CallFault;
use text::fault::{Fault, Layer, Told};
use thiserror::Error;

/// Why a sheet is refused.
#[derive(Clone, Copy, Debug, PartialEq, Eq, Error)]
pub enum SheetFault {
    /// The call or the text is at fault.
    #[error(transparent)]
    Call(CallFault),
    /// Row 0 is absent or is not the root.
    #[error("row 0 of the sheet is absent or is not the pair that it claims")]
    Root,
    /// The row at this line is inconsistent.
    #[error("a row is inconsistent: its left has the empty hedge and its right has not")]
    Inconsistent { line: usize },
    /// The row at this line has an either-or with neither side shown.
    #[error("a row has a gap: an either-or with neither side shown")]
    Gap { line: usize },
    /// The row at this line is wide.
    #[error("a row is wide: more than 8 pairs on its right under one name")]
    Wide { line: usize },
    /// The hedge is not in the left, or is in the right.
    #[error("the hedge is not in the left, or is in the right")]
    Witness,
}

impl Fault for SheetFault {
    ghost told = { sheet_told };

    fn told(self) -> Told {
        let (cause, at_line) = match self {
            SheetFault::Call(fault) => return fault.told(),
            SheetFault::Root => (10, 2),
            SheetFault::Inconsistent { line } => (11, line),
            SheetFault::Gap { line } => (12, line),
            SheetFault::Wide { line } => (13, line),
            SheetFault::Witness => (14, 2),
        };
        Told {
            cause,
            at_line,
            found_by: Layer::Sheet,
        }
    }
}

impl From<CallFault> for SheetFault {
    ghost from_gives = { λ f t. t ≡ in_call f };

    fn from(inner: CallFault) -> SheetFault {
        SheetFault::Call(inner)
    }
}
