//! The faults of a call. A table's fault stands in it whole.
ghost use Rattle.std.specs.Prelude.{◌≡◌};
ghost use Rattle.records.specs.Faults.{call_told};
ghost use Rattle.records.specs.declared.fault.CallFault.TheVariants.{Table as in_table};
ghost use Rattle.text.specs.declared.fault.TableFault.TheVariants.{Line as in_line};

use text::fault::{Fault, Layer, LineFault, TableFault, Told};
use thiserror::Error;

/// Why a call refuses what it is given.
#[derive(Clone, Copy, Debug, PartialEq, Eq, Error)]
pub enum CallFault {
    /// A line of the text is at fault.
    #[error(transparent)]
    Table(TableFault),
    /// A rule that is absent: at line 2 in a sheet's pair, at line 0 in the call itself.
    #[error("there is no such rule")]
    Rule { line: usize },
    /// Rows or items: at line 0 none, too many or unequal counts were given; else the first record
    /// without a place stands at that line.
    #[error("the rows and items are none, over 512 or not as many of both, or too few for the text")]
    Room { line: usize },
    /// The output is shorter than the sheet.
    #[error("the output is shorter than the sheet")]
    Output,
}

impl Fault for CallFault {
    ghost told = { call_told };

    fn told(self) -> Told {
        let (cause, at_line) = match self {
            CallFault::Table(fault) => return fault.told(),
            CallFault::Rule { line } => (8, line),
            CallFault::Room { line } => (9, line),
            CallFault::Output => (15, 0),
        };
        Told {
            cause,
            at_line,
            found_by: Layer::Call,
        }
    }
}

impl From<LineFault> for CallFault {
    ghost from_gives = { λ f t. t ≡ in_table (in_line f) };

    fn from(fault: LineFault) -> CallFault {
        CallFault::Table(TableFault::Line(fault))
    }
}

impl From<TableFault> for CallFault {
    ghost from_gives = { λ f t. t ≡ in_table f };

    fn from(table: TableFault) -> CallFault {
        CallFault::Table(table)
    }
}
