// Wide inequalities: under some name that a derivative of the left covers, the right has more than
// eight distinct pairs.
ghost use Rattle.std.specs.Prelude.{◌≡◌, ◌<◌, ◌&&◌, false, length, nat_lt, IfSome};
ghost use Rattle.std.specs.Option.{is_some};
ghost use Rattle.theory.specs.Inequality.{wide as wide_row, pairs as distinct_pairs};
ghost use Rattle.sides.specs.Steps.{labelled_by};
ghost use Rattle.sides.specs.View.{seen, names_of};

use crate::pairs::{MOST_PAIRS, Pairs};
use crate::setting::Setting;
use model::rows::Row;

impl Setting<'_> {
    // Whether the label of some derivative of the state q covers t.
    pub fn is_labelled(&self, q: usize, t: usize) -> bool
        ensures { result ≡ labelled_by (seen self.now) q t }
    {
        self.machine
            .derivatives(q)
            .iter()
            .any(|derivative| self.covers.get(derivative.0, t))
    }

    // Whether the right has more than eight distinct pairs under a name that the left has.
    fn is_crowded(&self, row: &Row, t: usize) -> bool
        ensures { result ≡ (labelled_by (seen self.now) row.now.left t && nat_lt 8 (length (distinct_pairs (seen self.now) t row.now.right.bits))) }
    {
        self.is_labelled(row.left, t) && self.pairs::<MOST_PAIRS>(t, &row.right).is_none()
    }

    // Whether the inequality is wide.
    pub fn is_wide(&self, row: &Row) -> bool
        ensures { result ≡ wide_row (seen self.now) row.now }
    {
        (0..self.covers.names()).any(|t| self.is_crowded(row, t))
    }

    // The pairs on the right of a row under the name t; None where no derivative of the left has a
    // label that covers t, or there are more than eight, which makes the row wide.
    pub fn labelled_pairs(&self, row: &Row, t: usize) -> Option<Pairs>
        ensures some { wide_row (seen self.now) row.now ≡ false → t < names_of self.now.covers.now → is_some result ≡ labelled_by (seen self.now) row.now.left t }
        ensures all { IfSome result (λ pairs. pairs.items ≡ distinct_pairs (seen self.now) t row.now.right.bits) }
    {
        if self.is_labelled(row.left, t) {
            self.pairs(t, &row.right)
        } else {
            None
        }
    }
}
