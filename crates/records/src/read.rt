//! Reading a whole text into rows and items.
ghost use Rattle.std.specs.Prelude.{◌≡◌, ◌≤◌, length, replicate, take, IfOk};
ghost use Rattle.model.specs.Blank.{blank_row, blank_item};
ghost use Rattle.records.specs.Places.{HasPlace};
ghost use Rattle.records.specs.Reading.{row_placed, item_placed, finished, counted, Opening, opening_prop, itself, sheet_of, count_of, sheet_read, hedge_read, ReadInto, SheetSound, ItemsSound};

use crate::fault::CallFault;
use crate::line::Judge;
use crate::sheet::{Bounds, Progress, Sheet, Stage, Step};
use model::names::Name;
use model::rows::{Item, Row};
use text::fault::{LineFault, ensure};
use text::line::whole;
use text::reader::Reader;

/// The most bytes that a text of records may have.
pub const LIMIT: usize = 262144;

/// The most rows or items that a call may be given.
pub const MOST: usize = 512;

/// A text that is to be read: the stage that it begins at, and what its numbers are held against.
#[derive(Clone, Copy)]
struct Reading<'a> {
    text: &'a [u8],
    stage: Stage,
    bounds: Bounds<'a>,
    ghost opening: { Opening stage } by { opening_prop stage },
}

/// Puts a line's record at its place.
fn place(count: usize, step: Step, rows: &mut [Row], items: &mut [Item])
    requires rows_room { HasPlace count (length rows.old) step }
    requires items_room { HasPlace count (length items.old) step }
    ensures rows { rows.new ≡ row_placed count rows.old step }
    ensures items { items.new ≡ item_placed count items.old step }
{
    match step {
        Step::Row(row) => rows[count] = row,
        Step::Item(item) => items[count] = item,
        _ => {}
    }
}

/// Refuses a text that ends too early: the line of this number is missing.
fn finish(progress: Progress, line: usize) -> Result<Progress, CallFault>
    ensures { result ≡ finished line progress progress.stage }
{
    match progress.stage {
        Stage::Ended => Ok(progress),
        _ => Err(LineFault::Form { line }.into()),
    }
}

/// Makes all rows and items blank.
pub fn blank(rows: &mut [Row], items: &mut [Item])
    ensures rows { rows.new ≡ replicate (length rows.old) blank_row }
    ensures items { items.new ≡ replicate (length items.old) blank_item }
{
    rows.fill(Row::blank());
    items.fill(Item::blank());
}

/// The first of the records, at most so many.
pub fn first<T>(records: &[T], count: usize) -> &[T]
    ensures { result.now ≡ take count records.now }
{
    records.get(..count).unwrap_or(records)
}

/// Refuses counts of rows and items that a call may not be given.
pub fn counts(rows: usize, items: usize) -> Result<(), CallFault>
    ensures { result ≡ counted rows items }
{
    ensure(
        rows >= 1 && rows <= MOST && rows == items,
        CallFault::Room { line: 0 },
    )
}

// Rows and items stay two slices: a struct that lends both would say of each call that it keeps them.
impl Reading<'_> {
    ghost use Rattle.records.specs.Texts.{lines_read, all_read, FilledBy};

    /// Reads the lines of the text into blank rows and items.
    fn lines(self, rows: &mut [Row], items: &mut [Item]) -> Result<Progress, CallFault>
        requires short { length self.text.now ≤ 262144 }
        requires few { length rows.old ≤ 512 }
        requires rows { rows.old ≡ replicate (length rows.old) blank_row }
        requires items { items.old ≡ replicate (length rows.old) blank_item }
        ensures { FilledBy (lines_read self.entry (length rows.old)) (length rows.old) (length rows.old) result rows.new items.new }
    {
        let judge = Judge::new(self.bounds, rows.len());
        let mut reader = Reader::new(self.text);
        let mut progress = Progress::started(self.stage);
        while let Some(line) = reader.next_line() {
            let step = judge.judge(progress, line)?;
            place(progress.count, step, rows, items);
            progress = progress.advanced(step);
        }
        finish(progress, reader.next_number())
    }

    /// Reads the text into blank rows and items, once their counts and the text as a whole are
    /// tested.
    fn checked(self, rows: &mut [Row], items: &mut [Item]) -> Result<Progress, CallFault>
        requires rows { rows.old ≡ replicate (length rows.old) blank_row }
        requires items { items.old ≡ replicate (length items.old) blank_item }
        ensures { FilledBy (all_read self.entry (length rows.old) (length items.old)) (length rows.old) (length items.old) result rows.new items.new }
    {
        counts(rows.len(), items.len())?;
        whole(self.text, LIMIT)?;
        self.lines(rows, items)
    }

    /// Reads the text into rows and items: what is not filled is blank, and all is blank after a
    /// refusal.
    fn read(self, rows: &mut [Row], items: &mut [Item]) -> Result<Progress, CallFault>
        ensures { ReadInto itself (all_read self.entry (length rows.old) (length items.old)) (length rows.old) (length items.old) result rows.new items.new }
    {
        blank(rows, items);
        let read = self.checked(rows, items);
        if read.is_err() {
            blank(rows, items);
        }
        read
    }
}

/// Reads a sheet's text against the numbers of rules and states and the names of a grammar. Its
/// records go to the first rows or items in order; all others are blank, and all of them are after
/// a refusal.
pub fn read_sheet(
    text: &[u8],
    bounds: Bounds,
    rows: &mut [Row],
    items: &mut [Item],
) -> Result<Sheet, CallFault>
    ensures read { ReadInto sheet_of (sheet_read bounds.entry.rules bounds.entry.states bounds.entry.names.now (length rows.old) (length items.old) text.now) (length rows.old) (length items.old) result rows.new items.new }
    ensures sound { IfOk result (λ sheet. SheetSound bounds.entry.rules bounds.entry.states bounds.entry.names.now sheet rows.new items.new) }
{
    let reading = Reading {
        text,
        stage: Stage::Sheet,
        bounds,
    };
    let progress = reading.read(rows, items)?;
    Ok(Sheet {
        verdict: progress.verdict,
        left: progress.left,
        right: progress.right,
        records: progress.count,
    })
}

/// Reads a hedge's text against the names of a grammar, and answers the number of its items. They
/// go to the first items in order; all others and all rows are blank, and all of them are after a
/// refusal.
pub fn read_hedge(
    text: &[u8],
    names: &[Name],
    rows: &mut [Row],
    items: &mut [Item],
) -> Result<usize, CallFault>
    ensures read { ReadInto count_of (hedge_read names.now (length rows.old) (length items.old) text.now) (length rows.old) (length items.old) result rows.new items.new }
    ensures rows { rows.new ≡ replicate (length rows.old) blank_row }
    ensures sound { IfOk result (λ n. ItemsSound names.now n rows.new items.new) }
{
    let bounds = Bounds {
        rules: 0,
        states: 0,
        names,
    };
    let reading = Reading {
        text,
        stage: Stage::Hedge,
        bounds,
    };
    let progress = reading.read(rows, items)?;
    Ok(progress.count)
}
