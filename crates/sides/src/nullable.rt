// Inconsistent inequalities: the left has the empty hedge, and no state on the right has it.
ghost use Rattle.std.specs.Prelude.{◌≡◌};
ghost use Rattle.theory.specs.Inequality.{some_nullable, inconsistent};
ghost use Rattle.sides.specs.View.{seen};

use crate::setting::Setting;
use model::rows::Row;
use model::sets::StateSet;

impl Setting<'_> {
    // Whether some state of the set is nullable.
    fn has_nullable(&self, set: &StateSet) -> bool
        ensures { result ≡ some_nullable (seen self.now) set.now.bits }
    {
        (0..self.machine.count()).any(|q| set.contains(q) && self.machine.is_nullable(q))
    }

    // Whether the inequality is inconsistent.
    pub fn is_inconsistent(&self, row: &Row) -> bool
        ensures { result ≡ inconsistent (seen self.now) row.now }
    {
        self.machine.is_nullable(row.left) && !self.has_nullable(&row.right)
    }
}
