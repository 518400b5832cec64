//! The table of settled pairs that a register keeps.
#![tactic(auto)]

ghost use Rattle.std.specs.Prelude.{◌≡◌, ℕ, ◌<◌, IfOk};
ghost use Rattle.ledger.specs.Settled.{at, enters, unsettled};

pub mod table;

use model::verdict::Verdict;
use std::alloc::{AllocError, Global};
use table::{Ledger, RULES};

impl Ledger {
    /// A table in which every pair is unsettled.
    pub fn new(heap: Global) -> Result<Ledger, AllocError>
        ensures { IfOk result (λ l. (a b : ℕ) → at l a b ≡ unsettled) }
    {
        let pairs = vec![in heap; None; RULES * RULES]?;
        Ok(Ledger { pairs })
    }

    /// How the pair of the rules a and b is settled; a number above 31 is no rule.
    pub fn look_up(&self, a: usize, b: usize) -> Option<Verdict>
        ensures { result ≡ at self.now a b }
    {
        if a < RULES && b < RULES {
            self.pairs[a * RULES + b]
        } else {
            None
        }
    }

    /// Settles the pair of the rules a and b, and no other.
    pub fn enter(&mut self, a: usize, b: usize, verdict: Option<Verdict>)
        ensures { (c d : ℕ) → at self.new c d ≡ enters (at self.old) a b verdict c d }
    {
        if a < RULES && b < RULES {
            self.pairs[a * RULES + b] = verdict;
        }
    }

    /// Makes every pair unsettled.
    pub fn clear(&mut self)
        ensures { (a b : ℕ) → at self.new a b ≡ unsettled }
    {
        self.pairs.as_mut_slice().fill(None);
    }
}
