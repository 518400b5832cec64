// Refuting an inequality: an either-or both of whose sides are refuted gives an item that spells a
// witness, from the witnesses of its sides.
ghost use Rattle.std.specs.Prelude.{◌≡◌, ◌<◌, false};
ghost use Rattle.theory.specs.Inequality.{wide as wide_row, pairs as distinct_pairs};
ghost use Rattle.sides.specs.View.{seen, names_of};
ghost use Rattle.marking.specs.Refutes.{mark_of, joined, of_derivatives as derivative_item, refutation as refuted_by};

use crate::met::MetRows;
use book::find;
use model::rows::{Item, Row};
use sides::either::EitherOr;

impl MetRows<'_> {
    // The mark of a row, or None where it is none of the rows or has none.
    fn mark(&self, marks: &[Option<usize>], row: &Row) -> Option<usize>
        ensures { result ≡ mark_of self.now.rows.now marks.now row.now }
    {
        let place = find(self.rows, row)?;
        *marks.get(place)?
    }

    // The item t of an either-or, if both sides are marked.
    fn item_of(&self, marks: &[Option<usize>], t: usize, sides: &EitherOr) -> Option<Item>
        ensures { result ≡ joined t (mark_of self.now.rows.now marks.now sides.now.content) (mark_of self.now.rows.now marks.now sides.now.rest) }
    {
        let child = self.mark(marks, &sides.content)?;
        let next = self.mark(marks, &sides.rest)?;
        Some(Item {
            name: t,
            child,
            next,
        })
    }

    // The first item over all either-ors under the name t, for a row that is not wide. (A `for`, here
    // and below: with `find_map` the check leaves the result open, for its clause names no list.)
    // (That the row is not wide is a `requires` and no type: it is known for one call alone.)
    fn of_name(&self, marks: &[Option<usize>], row: &Row, t: usize) -> Option<Item>
        requires narrow { wide_row (seen self.now.setting.now) row.now ≡ false }
        requires name { t < names_of self.now.setting.now.covers.now }
        ensures { result ≡ derivative_item (seen self.now.setting.now) self.now.rows.now marks.now t row.now.left (distinct_pairs (seen self.now.setting.now) t row.now.right.bits) }
    {
        let pairs = self.setting.labelled_pairs(row, t)?;
        for sides in self.setting.either_ors(t, row.left, &pairs) {
            if let Some(item) = self.item_of(marks, t, &sides) {
                return Some(item);
            }
        }
        None
    }

    // The item that refutes a row, which is not wide: that of its first either-or both of whose
    // sides are marked.
    pub(crate) fn refutation(&self, marks: &[Option<usize>], row: &Row) -> Option<Item>
        requires { wide_row (seen self.now.setting.now) row.now ≡ false }
        ensures { result ≡ refuted_by (seen self.now.setting.now) self.now.rows.now marks.now row.now }
    {
        for t in 0..self.setting.covers.names() {
            if let Some(item) = self.of_name(marks, row, t) {
                return Some(item);
            }
        }
        None
    }
}
