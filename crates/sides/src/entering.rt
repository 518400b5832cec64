// Taking an inequality: the sides of all its either-ors are entered in a book of rows, names rising,
// derivatives of the left in order, subsets rising, the content side first.
ghost use Rattle.std.specs.Prelude.{◌≡◌, ◌<◌, false};
ghost use Rattle.std.specs.Result.{is_ok};
ghost use Rattle.theory.specs.Inequality.{same_row, wide as wide_row, of_name};
ghost use Rattle.theory.specs.Meeting.{sides_of, sides};
ghost use Rattle.book.specs.Feeding.{Fills};
ghost use Rattle.sides.specs.View.{seen, names_of};
ghost use Rattle.sides.specs.Took.{Took};
ghost use Rattle.sides.specs.declared.entering.Stop.TheVariants.{OutOfRows};

use crate::setting::Setting;
use book::{Book, Full};
use model::rows::Row;

// Why taking an inequality stops: it is wide, or one of its sides has no row.
#[derive(Clone, Copy, PartialEq, Eq, Debug, Drop)]
pub enum Stop {
    Wide,
    OutOfRows,
}

impl From<Full> for Stop {
    ghost from_gives = { λ _ stop. stop ≡ OutOfRows };

    fn from(_full: Full) -> Stop {
        Stop::OutOfRows
    }
}

impl Setting<'_> {
    // Enters the sides of all either-ors of a row, which is not wide, under the name t.
    // (That the row is not wide is a `requires` and no type: it is known for one call alone.)
    fn enter_name(&self, row: &Row, t: usize, book: &mut Book<'_, Row>) -> Result<(), Full>
        requires narrow { wide_row (seen self.now) row.now ≡ false }
        requires name { t < names_of self.now.covers.now }
        ensures { Fills same_row book.old book.new (sides_of (of_name (seen self.now) row.now t)) (is_ok result) }
    {
        let Some(pairs) = self.labelled_pairs(row, t) else {
            return Ok(());
        };
        for sides in self.either_ors(t, row.left, &pairs) {
            book.put(sides.content)?;
            book.put(sides.rest)?;
        }
        Ok(())
    }

    // Enters the sides of all either-ors of a row, which is not wide.
    fn enter_sides(&self, row: &Row, book: &mut Book<'_, Row>) -> Result<(), Full>
        requires { wide_row (seen self.now) row.now ≡ false }
        ensures { Fills same_row book.old book.new (sides (seen self.now) row.now) (is_ok result) }
    {
        for t in 0..self.covers.names() {
            self.enter_name(row, t, book)?;
        }
        Ok(())
    }

    // Takes an inequality: enters its sides unless it is wide.
    pub fn take_row(&self, row: &Row, book: &mut Book<'_, Row>) -> Result<(), Stop>
        ensures { Took (seen self.now) row.now book.old book.new result }
    {
        if self.is_wide(row) {
            return Err(Stop::Wide);
        }
        self.enter_sides(row, book)?;
        Ok(())
    }
}
