// The answer to a question.
ghost use Rattle.std.specs.Prelude.{◌≡◌, ◌<◌, ◌≤◌, true, length, take, slice_index_or};
ghost use Rattle.model.specs.Blank.{blank_row};
ghost use Rattle.inequality.specs.Marks.{Sided};
ghost use Rattle.marking.specs.Steps.{Roomy};
ghost use Rattle.sides.specs.View.{seen};
ghost use Rattle.search.specs.Answered.{root_of, suits, Decided, Answered, Asked};

use crate::blank::{blank_from, keep_unmarked};
use crate::meeting::meet;
use crate::met::MetRows;
use model::rows::{Item, Row};
use model::sets::StateSet;
use sides::entering::Stop;
use sides::setting::Setting;

// Whether the inclusion holds, with the number of rows met and of the records that show it; or why
// the search stopped. (Four outcomes in one enum, and no Result: a stop is an answer like the others,
// which its caller prints with the number of rows met. Callers match on all four, and each makes
// something else of them.)
#[derive(Clone, Copy)]
pub enum Answer {
    Included { met: usize, records: usize },
    Excluded { met: usize, records: usize },
    Wide { met: usize },
    OutOfRows { met: usize },
}

// A question is searched within at most so many rows.
const MOST_ROWS: usize = 512;

// Decides a question whose reachable inequalities stand in the first rows.
fn decide(
    setting: &Setting<'_>,
    count: usize,
    rows: &mut [Row],
    items: &mut [Item],
    marks: &mut [Option<usize>],
) -> Answer
    requires some { 0 < count }
    requires within { count ≤ length rows.old }
    requires sided { Sided (seen setting.now) (take count rows.old) }
    requires roomy { Roomy (seen setting.now) (take count rows.old) marks.old items.old }
    ensures { Decided (seen setting.now) (take count rows.old) (slice_index_or (take count rows.old) 0 blank_row) (length rows.old) (length items.old) result rows.new items.new }
{
    let met = MetRows {
        setting,
        rows: &rows[..count],
    };
    let used = met.settle(marks, items);
    if marks[0].is_some() {
        blank_from(rows, 0, Row::blank());
        blank_from(items, used, Item::blank());
        return Answer::Excluded {
            met: count,
            records: used,
        };
    }
    let records = keep_unmarked(rows, &marks[..count]);
    blank_from(rows, records, Row::blank());
    blank_from(items, 0, Item::blank());
    Answer::Included {
        met: count,
        records,
    }
}

// Answers a question that rows, items and marks suit.
fn search(
    setting: &Setting<'_>,
    root: Row,
    rows: &mut [Row],
    items: &mut [Item],
    marks: &mut [Option<usize>],
) -> Answer
    requires { suits (length rows.old) (length items.old) (length marks.old) ≡ true }
    ensures { Answered (seen setting.now) root (length rows.old) (length items.old) result rows.new items.new }
{
    let meeting = meet(setting, root, rows);
    let met = meeting.count;
    let Err(stop) = meeting.end else {
        return decide(setting, met, rows, items, marks);
    };
    blank_from(rows, 0, Row::blank());
    blank_from(items, 0, Item::blank());
    match stop {
        Stop::Wide => Answer::Wide { met },
        Stop::OutOfRows => Answer::OutOfRows { met },
    }
}

// The question whether each hedge of the state `left` is one of the state `right`, within the rows.
// Where there are no rows or more than 512, or fewer items or marks than rows, none is met.
// (Rows, items and marks stay three parameters, here and above: each is lent apart by the call.)
pub fn question(
    setting: &Setting<'_>,
    left: usize,
    right: usize,
    rows: &mut [Row],
    items: &mut [Item],
    marks: &mut [Option<usize>],
) -> Answer
    ensures { Asked (seen setting.now) (root_of left right) (length rows.old) (length items.old) (suits (length rows.old) (length items.old) (length marks.old)) result rows.new items.new }
{
    let count = rows.len();
    if count > 0 && count <= MOST_ROWS && count <= items.len() && count <= marks.len() {
        let root = Row {
            left,
            right: StateSet::empty().with(right),
        };
        search(setting, root, rows, items, marks)
    } else {
        blank_from(rows, 0, Row::blank());
        blank_from(items, 0, Item::blank());
        Answer::OutOfRows { met: 0 }
    }
}
