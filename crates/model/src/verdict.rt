// The two verdicts on a pair of rules.
use std::fmt;

// Whether the right rule has every hedge of the left one, or lacks one.
#[derive(Clone, Copy, Debug, PartialEq, Eq)]
pub enum Verdict {
    Included,
    Excluded,
}

impl fmt::Display for Verdict {
    fn fmt<W: fmt::Write>(&self, f: &mut fmt::Formatter<W>) -> fmt::Result {
        f.write_str(match self {
            Verdict::Included => "included",
            Verdict::Excluded => "excluded",
        })
    }
}
