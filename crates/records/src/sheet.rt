//! What a text of records is made of, line by line.
ghost use Rattle.std.specs.Prelude.{◌≡◌, ◌≤◌};
ghost use Rattle.records.specs.Reading.{records_of, started, advanced};

use model::names::Name;
use model::rows::{Item, Row};
pub use model::verdict::Verdict;

/// A sheet that was read: its verdict, its pair of rules and the number of its records.
#[derive(Clone, Copy)]
pub struct Sheet {
    pub verdict: Verdict,
    pub left: usize,
    pub right: usize,
    pub records: usize,
}

/// What the numbers of a sheet are held against: how many rules and states a grammar has, and its
/// names.
#[derive(Clone, Copy)]
pub struct Bounds<'a> {
    pub rules: usize,
    pub states: usize,
    pub names: &'a [Name],
}

/// What the next line may be.
#[derive(Clone, Copy)]
pub enum Stage {
    /// The first line of a sheet.
    Sheet,
    /// The first line of a hedge.
    Hedge,
    /// The pair of a sheet.
    Pair,
    /// A row, or the end.
    Rows,
    /// An item, or the end.
    Items,
    /// No line any more.
    Ended,
}

/// How far a text has been read. It has no `Sheet` in it: a hedge is read by it too, and has no pair. What
/// no line has said yet is "excluded" and 0, and nobody reads it before that line.
#[derive(Clone, Copy)]
pub struct Progress {
    pub stage: Stage,
    pub verdict: Verdict,
    pub left: usize,
    pub right: usize,
    pub count: usize,
}

impl From<Verdict> for Stage {
    ghost from_gives = { λ verdict stage. stage ≡ records_of verdict };

    /// The stage of a sheet's records.
    fn from(verdict: Verdict) -> Stage {
        match verdict {
            Verdict::Included => Stage::Rows,
            Verdict::Excluded => Stage::Items,
        }
    }
}

impl Progress {
    /// Nothing has been read, and the first line is to be of this stage.
    pub(crate) fn started(stage: Stage) -> Progress
        ensures { result ≡ started stage }
    {
        Progress {
            stage,
            verdict: Verdict::Excluded,
            left: 0,
            right: 0,
            count: 0,
        }
    }

    /// The progress after a line.
    pub(crate) fn advanced(self, step: Step) -> Progress
        requires { self.count ≤ 512 }
        ensures { result ≡ advanced self step }
    {
        match step {
            Step::Opened(verdict) => Progress {
                stage: Stage::Pair,
                verdict,
                ..self
            },
            Step::Begun => Progress {
                stage: Stage::Items,
                ..self
            },
            Step::Paired(left, right) => Progress {
                stage: self.verdict.into(),
                left,
                right,
                ..self
            },
            Step::Row(_) | Step::Item(_) => Progress {
                count: self.count + 1,
                ..self
            },
            Step::Ended => Progress {
                stage: Stage::Ended,
                ..self
            },
        }
    }
}

/// How many rules and states there are, and how many records have a place. It holds no `Bounds`: those have
/// names, which a line is judged by apart.
#[derive(Clone, Copy)]
pub struct Limits {
    pub rules: usize,
    pub states: usize,
    pub room: usize,
}

/// What a line says.
#[derive(Clone, Copy)]
pub enum Step {
    /// The first line of a sheet with its verdict.
    Opened(Verdict),
    /// The first line of a hedge.
    Begun,
    /// The rules of a pair.
    Paired(usize, usize),
    /// A row.
    Row(Row),
    /// An item.
    Item(Item),
    /// The end.
    Ended,
}
