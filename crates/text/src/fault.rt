//! The faults of lines and tables. An upper fault contains the lower one whole.
ghost use Rattle.std.specs.Prelude.{◌≡◌, cond, Ok, Err};
ghost use Rattle.text.specs.Faults.{line_told, table_told};
ghost use Rattle.text.specs.declared.fault.Told.{Told};
ghost use Rattle.text.specs.declared.fault.TableFault.TheVariants.{Line as in_line};

use std::fmt;
use thiserror::Error;

/// The part of the work that refused.
#[derive(Clone, Copy, Debug, PartialEq, Eq)]
pub enum Layer {
    Line,
    Table,
    Grammar,
    Sheet,
    Call,
}

impl fmt::Display for Layer {
    fn fmt<W: fmt::Write>(&self, f: &mut fmt::Formatter<W>) -> fmt::Result {
        f.write_str(match self {
            Layer::Line => "line",
            Layer::Table => "table",
            Layer::Grammar => "grammar",
            Layer::Sheet => "sheet",
            Layer::Call => "call",
        })
    }
}

/// What a fault tells: the number of its cause, the line that it stands at, from 1 or 0 where it is
/// no line's, and the layer that found it. The numbers are those that are printed and sent.
#[derive(Clone, Copy, Debug, PartialEq, Eq)]
pub struct Told {
    pub cause: u8,
    pub at_line: usize,
    pub found_by: Layer,
}

/// A fault, which tells its cause, its line and its layer.
pub trait Fault: Copy {
    ghost told: { Self → Told };

    /// What it tells.
    fn told(self) -> Told
        ensures { result ≡ told self };

    /// The number of its cause.
    fn number(self) -> u8
        ensures { result ≡ (told self).cause }
    {
        self.told().cause
    }

    /// The line that it stands at, from 1; 0 where it is no line's.
    fn line(self) -> usize
        ensures { result ≡ (told self).at_line }
    {
        self.told().at_line
    }

    /// The layer that found it.
    fn layer(self) -> Layer
        ensures { result ≡ (told self).found_by }
    {
        self.told().found_by
    }
}

/// Refuses with the fault, unless the test holds.
pub fn ensure<E: Copy>(holds: bool, fault: E) -> Result<(), E>
    ensures { result ≡ cond holds (Ok tt) (Err fault) }
{
    if holds { Ok(()) } else { Err(fault) }
}

/// What is wrong with a line by itself.
#[derive(Clone, Copy, Debug, PartialEq, Eq, Error)]
pub enum LineFault {
    /// A wrong key, first value or number of fields, a missing line, or a text that is no lines.
    #[error("a line has a wrong key, a wrong first value or a wrong number of fields, or is missing, or the text is empty, too long or without its last line end")]
    Form { line: usize },
    /// A malformed number.
    #[error("a number is malformed")]
    Number { line: usize },
    /// A malformed or repeated spelling.
    #[error("a spelling is malformed or repeated")]
    Spelling { line: usize },
}

/// What is wrong with a line as an entry of a table.
#[derive(Clone, Copy, Debug, PartialEq, Eq, Error)]
pub enum TableFault {
    /// The line itself is at fault.
    #[error(transparent)]
    Line(LineFault),
    /// One entry more than the table may have.
    #[error("there are too many names, nodes or rules")]
    Full { line: usize },
    /// A number that is not allowed at its place, or a wrong end count.
    #[error("a number is not allowed at its place, or the count at the end is wrong")]
    Place { line: usize },
}

impl Fault for LineFault {
    ghost told = { line_told };

    fn told(self) -> Told {
        let (cause, at_line) = match self {
            LineFault::Form { line } => (1, line),
            LineFault::Number { line } => (2, line),
            LineFault::Spelling { line } => (3, line),
        };
        Told {
            cause,
            at_line,
            found_by: Layer::Line,
        }
    }
}

impl Fault for TableFault {
    ghost told = { table_told };

    fn told(self) -> Told {
        let (cause, at_line) = match self {
            TableFault::Line(fault) => return fault.told(),
            TableFault::Full { line } => (4, line),
            TableFault::Place { line } => (5, line),
        };
        Told {
            cause,
            at_line,
            found_by: Layer::Table,
        }
    }
}

/// A line fault is contained whole.
impl From<LineFault> for TableFault {
    ghost from_gives = { λ f t. t ≡ in_line f };

    fn from(lower: LineFault) -> TableFault {
        TableFault::Line(lower)
    }
}
