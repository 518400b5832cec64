//! Why a text gives no tables.
ghost use Rattle.std.specs.Prelude.{◌≡◌};
ghost use Rattle.tables.specs.declared.fault.ReadError.TheVariants.{Fault, Memory};
ghost use Rattle.text.specs.declared.fault.TableFault.TheVariants.{Line as in_line};

use std::alloc::AllocError;
use text::fault::{LineFault, TableFault};
use thiserror::Error;

/// A fault of the text, or want of memory. (Each layer has an error enum of its own, as its faults differ.)
#[derive(Clone, Copy, Debug, PartialEq, Eq, Error)]
pub enum ReadError {
    #[error(transparent)]
    Fault(TableFault),
    #[error("not enough memory to read the grammar")]
    Memory,
}

/// A table fault is contained whole.
impl From<TableFault> for ReadError {
    ghost from_gives = { λ f r. r ≡ Fault f };

    fn from(lower: TableFault) -> ReadError {
        ReadError::Fault(lower)
    }
}

/// A line fault is contained whole, inside a table fault.
impl From<LineFault> for ReadError {
    ghost from_gives = { λ f r. r ≡ Fault (in_line f) };

    fn from(lower: LineFault) -> ReadError {
        ReadError::Fault(TableFault::Line(lower))
    }
}

/// Want of memory is no fault of the text.
impl From<AllocError> for ReadError {
    ghost from_gives = { λ _ r. r ≡ Memory };

    fn from(_lower: AllocError) -> ReadError {
        ReadError::Memory
    }
}
