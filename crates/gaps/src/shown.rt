//! Whether a side of an either-or is shown.
ghost use Rattle.std.specs.Prelude.{◌≡◌};
ghost use Rattle.theory.specs.Count.{any};
ghost use Rattle.theory.specs.Inequality.{same_row};
ghost use Rattle.ledger.specs.Settled.{at};
ghost use Rattle.gaps.specs.Shows.{included?, leans};
ghost use Rattle.gaps.specs.Grounds.{shown_on};

use crate::chains::slot;
use crate::grounds::{Grounds, ROOM};
use ledger::table::Ledger;
use model::rows::Row;
use model::sets::StateSet;
use model::verdict::Verdict;

/// Whether a pair is settled as included.
fn is_included(settled: Option<Verdict>) -> bool
    ensures { result ≡ included? settled }
{
    settled == Some(Verdict::Included)
}

/// Whether the inequality is rule c against exactly {d}, with that pair settled as included.
fn leans_on(ledger: &Ledger, rules: usize, side: &Row) -> bool
    ensures { result ≡ leans (at ledger.now) rules side.now }
{
    side.left < rules
        && (0..rules).any(|d| {
            is_included(ledger.look_up(side.left, d)) && side.right == StateSet::empty().with(d)
        })
}

impl Grounds<'_> {
    /// Whether the inequality is one of the rows: only its chain is looked at, where there are chains.
    /// (In line, as `shows`: it is asked for each either-or of a sheet.)
    #[inline(always)]
    fn has_row(&self, side: &Row) -> bool
        ensures { result ≡ any (same_row side.now) self.now.rows.now }
    {
        if self.rows.len() > ROOM {
            return self.rows.contains(side);
        }
        let mut next = self.heads[slot(side)];
        while let Some(number) = next {
            let at = number as usize;
            if *side == self.rows[at] {
                return true;
            }
            next = self.links[at];
        }
        false
    }

    /// Whether a side is shown.
    #[tactic(auto, unfolding(crate::specs::Shows::shown))]
    #[inline(always)]
    pub fn shows(&self, side: &Row) -> bool
        ensures { result ≡ shown_on self.now side.now }
    {
        self.has_row(side) || leans_on(self.ledger, self.rules, side)
    }
}
