// Blanking records, and keeping the unmarked rows.
ghost use Rattle.std.specs.Prelude.{◌≡◌, ◌-◌, ◌≤◌, ◌++◌, length, take, replicate};
ghost use Rattle.inequality.specs.Verdicts.{unmarked};
ghost use Rattle.marking.specs.Marks.{flags};

use model::rows::Row;

// Blanks all records from a number on.
// (A loop: `fill` asks for a clone that cannot fail; `Copy` does not say it, two `requires` would.)
pub(crate) fn blank_from<T: Copy>(records: &mut [T], from: usize, blank: T)
    requires { from ≤ length records.old }
    ensures { records.new ≡ take from records.old ++ replicate (length records.old - from) blank }
{
    for record in &mut records[from..] {
        *record = blank;
    }
}

// Moves the rows that are not marked to the front, in order, and gives their number.
// (A count: a turn is at two places of one list, which no iterator lends at once.)
pub(crate) fn keep_unmarked(rows: &mut [Row], marks: &[Option<usize>]) -> usize
    requires { length marks.now ≤ length rows.old }
    ensures number { result ≡ length (unmarked (take (length marks.now) rows.old) (flags marks.now (length marks.now))) }
    ensures kept { take result rows.new ≡ unmarked (take (length marks.now) rows.old) (flags marks.now (length marks.now)) }
{
    let mut place = 0;
    for (i, mark) in marks.iter().enumerate() {
        if mark.is_none() {
            rows[place] = rows[i];
            place += 1;
        }
    }
    place
}
