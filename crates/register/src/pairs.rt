//! Look-ups and clearings.
ghost use Rattle.std.specs.Prelude.{◌≡◌, ℕ, length};
ghost use Rattle.ledger.specs.Settled.{at, unsettled};
ghost use Rattle.register.specs.Basis.{tables_of, machine_of};
ghost use Rattle.register.specs.Calls.{looked_up, LookUpTrue};

use crate::register::Register;
use model::verdict::Verdict;
use records::fault::CallFault;

impl Register<'_, '_> {
    /// How a pair is settled.
    pub fn look_up(&self, left: usize, right: usize) -> Result<Option<Verdict>, CallFault>
        ensures result { result ≡ looked_up (length (tables_of self.now.basis).bodies) (at self.now.ledger) left right }
        ensures truth { LookUpTrue (tables_of self.now.basis) (machine_of self.now.basis) left right result }
    {
        self.basis.check_rule(left)?;
        self.basis.check_rule(right)?;
        Ok(self.ledger.look_up(left, right))
    }

    /// Makes every pair unsettled.
    pub fn clear(&mut self)
        ensures cleared { (a b : ℕ) → at self.new.ledger a b ≡ unsettled }
        ensures basis { self.new.basis ≡ self.old.basis }
    {
        self.ledger.clear();
    }
}
