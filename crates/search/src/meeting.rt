// The breadth-first meeting of the inequalities that are reachable from a root.
ghost use Rattle.std.specs.Prelude.{◌≡◌, ◌<◌, ◌≤◌, [], length, take};
ghost use Rattle.theory.specs.Meeting.{Met, meet as meet_rows};
ghost use Rattle.book.specs.Feeding.{holds, room, Kept};
ghost use Rattle.sides.specs.View.{seen};
ghost use Rattle.search.specs.Ends.{met_by};

use book::Book;
use model::rows::Row;
use sides::entering::Stop;
use sides::setting::Setting;

// A meeting: how many rows were met, and whether all reachable inequalities were, or why it stopped.
#[derive(Clone, Copy, PartialEq, Eq)]
pub struct Meeting {
    pub count: usize,
    pub end: Result<(), Stop>,
}

// Enters the root in an empty book, takes the rows of the book in order, and enters the sides of each.
// (A count, and no iterator over the rows: the book grows while its rows are taken.)
fn walk(setting: &Setting<'_>, root: Row, book: &mut Book<'_, Row>) -> Result<(), Stop>
    requires empty { holds book.old ≡ [] }
    requires some { 0 < room book.old }
    ensures met { met_by result (holds book.new) ≡ meet_rows (seen setting.now) (room book.old) root }
    ensures kept { Kept book.old book.new }
{
    book.put(root)?;
    let mut taken = 0;
    while let Some(&row) = book.records().get(taken) {
        setting.take_row(&row, book)?;
        taken += 1;
    }
    Ok(())
}

// Meets all inequalities that are reachable from the root, within the rows.
pub(crate) fn meet(setting: &Setting<'_>, root: Row, rows: &mut [Row]) -> Meeting
    requires { 0 < length rows.old }
    ensures met { met_by result.end (take result.count rows.new) ≡ meet_rows (seen setting.now) (length rows.old) root }
    ensures within { result.count ≤ length rows.old }
{
    let mut book = Book::new(rows);
    let end = walk(setting, root, &mut book);
    let count = book.records().len();
    Meeting { count, end }
}
