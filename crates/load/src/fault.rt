//! The faults of a grammar. A table's fault stands in it whole.
ghost use Rattle.std.specs.Prelude.{◌≡◌};
ghost use Rattle.load.specs.Errors.{of_read};
ghost use Rattle.load.specs.Faults.{grammar_told};
ghost use Rattle.load.specs.declared.fault.GrammarFault.TheVariants.{Table as in_table};

use tables::fault::ReadError;
use text::fault::{Fault, Layer, TableFault, Told};
use thiserror::Error;

/// Why a grammar is refused.
#[derive(Clone, Copy, Debug, PartialEq, Eq, Error)]
pub enum GrammarFault {
    /// A line of the text is at fault.
    #[error(transparent)]
    Table(TableFault),
    /// The rule at this line mentions a rule where it may not.
    #[error("the rule mentions itself or a later rule where recursion is not lawful")]
    Recursion { line: usize },
    /// Over 512 expressions, 128 states or 512 derivatives.
    #[error("the grammar has over 512 expressions, 128 states or 512 derivatives")]
    Size,
}

/// Why no grammar was loaded: a fault of the text, or want of memory. (Each layer has an error enum of its
/// own, as its faults differ.)
#[derive(Clone, Copy, Debug, PartialEq, Eq, Error)]
pub enum LoadError {
    #[error(transparent)]
    Fault(GrammarFault),
    #[error("there is no memory for the grammar")]
    Memory,
}

/// A fault of the tables is contained whole.
impl From<ReadError> for LoadError {
    ghost from_gives = { λ e t. t ≡ of_read e };

    fn from(error: ReadError) -> LoadError {
        match error {
            ReadError::Fault(fault) => LoadError::Fault(fault.into()),
            ReadError::Memory => LoadError::Memory,
        }
    }
}

impl Fault for GrammarFault {
    ghost told = { grammar_told };

    fn told(self) -> Told {
        let (cause, at_line) = match self {
            GrammarFault::Table(fault) => return fault.told(),
            GrammarFault::Recursion { line } => (6, line),
            GrammarFault::Size => (7, 0),
        };
        Told {
            cause,
            at_line,
            found_by: Layer::Grammar,
        }
    }
}

impl From<TableFault> for GrammarFault {
    ghost from_gives = { λ f t. t ≡ in_table f };

    fn from(fault: TableFault) -> GrammarFault {
        GrammarFault::Table(fault)
    }
}
