//! Judging one line of a sheet or a hedge.
ghost use Rattle.std.specs.Prelude.{◌≡◌};
ghost use Rattle.text.specs.Fields.{view, line_of};
ghost use Rattle.text.specs.Cursors.{fields_left};
ghost use Rattle.text.specs.declared.fault.TableFault.TheVariants.{Place as at_place};
ghost use Rattle.records.specs.declared.fault.CallFault.TheVariants.{Table as in_table};
ghost use Rattle.records.specs.Lines.{worded, verdict_in, sheet_line, hedge_line, pair_line, all_numbers, right_states, roomy, row_line, item_line, end_line, at_stage, judged};

use crate::fault::CallFault;
use crate::place::item_fits;
use crate::sheet::{Bounds, Limits, Progress, Stage, Step, Verdict};
use model::names::Name;
use model::rows::{Item, Row};
use model::sets::StateSet;
use text::fault::{LineFault, TableFault, ensure};
use text::field::Field;
use text::line::{Fields, Line};

/// What the lines of a text are judged against: how many rules, states and places there are, and
/// the names of a grammar.
#[derive(Clone, Copy)]
pub(crate) struct Judge<'a> {
    limits: Limits,
    names: &'a [Name],
}

/// Refuses a line where another word stands.
fn expect(field: Field, word: &[u8]) -> Result<(), LineFault>
    ensures { result ≡ worded word.now (view field.entry) }
{
    ensure(field.is(word), LineFault::Form { line: field.line() })
}

/// The verdict that a word names.
fn verdict(word: Field) -> Result<Verdict, LineFault>
    ensures { result ≡ verdict_in (view word.entry) }
{
    word.one_of(&[
        (b"included", Verdict::Included),
        (b"excluded", Verdict::Excluded),
    ])
}

/// The fault of a number that is not allowed at its place, in the line of this key.
fn misplaced(key: Field) -> CallFault
    ensures { result ≡ in_table (at_place (line_of (view key.entry))) }
{
    TableFault::Place { line: key.line() }.into()
}

/// The first line of a sheet.
fn sheet_line(key: Field, mut fields: Fields) -> Result<Step, CallFault>
    ensures { result ≡ sheet_line fields.entry.line (view key.entry) (fields_left fields.entry) }
{
    expect(key, b"sheet")?;
    let word = fields.key()?;
    fields.end()?;
    Ok(Step::Opened(verdict(word)?))
}

/// The first line of a hedge.
fn hedge_line(key: Field, mut fields: Fields) -> Result<Step, CallFault>
    ensures { result ≡ hedge_line fields.entry.line (view key.entry) (fields_left fields.entry) }
{
    expect(key, b"hedge")?;
    let word = fields.key()?;
    fields.end()?;
    expect(word, b"1")?;
    Ok(Step::Begun)
}

/// Refuses a line with a malformed number among its fields.
fn all_numbers(mut fields: Fields) -> Result<(), LineFault>
    ensures { result ≡ all_numbers fields.entry.line (fields_left fields.entry) }
{
    while !fields.is_done() {
        fields.number()?.value()?;
    }
    Ok(())
}

/// The set of the right states, which are the fields that are left: each is a state above the one
/// before it.
fn right_states(states: usize, mut fields: Fields) -> Result<StateSet, CallFault>
    ensures { result ≡ right_states fields.entry.line states 0 0 (fields_left fields.entry) }
{
    let line = fields.line();
    let mut set = StateSet::empty();
    let mut low = 0;
    while !fields.is_done() {
        let q = fields.number()?.value()?;
        ensure(low <= q && q < states.min(128), TableFault::Place { line })?;
        set = set.with(q);
        low = q + 1;
    }
    Ok(set)
}

/// The end, with the number of records.
fn end_line(count: usize, key: Field, fields: Fields) -> Result<Step, CallFault>
    ensures { result ≡ end_line count fields.entry.line (view key.entry) (fields_left fields.entry) }
{
    expect(key, b"end")?;
    let number = fields.last_number()?.value()?;
    ensure(number == count, misplaced(key))?;
    Ok(Step::Ended)
}

impl<'a> Judge<'a> {
    /// A judge of records that have so many places.
    pub(crate) fn new(bounds: Bounds<'a>, room: usize) -> Judge<'a>
        ensures limits { result.limits ≡ record { rules = bounds.entry.rules; states = bounds.entry.states; room = room } }
        ensures names { result.names.now ≡ bounds.entry.names.now }
    {
        let Bounds {
            rules,
            states,
            names,
        } = bounds;
        let limits = Limits {
            rules,
            states,
            room,
        };
        Judge { limits, names }
    }

    /// The pair of a sheet.
    fn pair_line(self, key: Field, mut fields: Fields) -> Result<Step, CallFault>
        ensures { result ≡ pair_line self.entry.limits.rules fields.entry.line (view key.entry) (fields_left fields.entry) }
    {
        expect(key, b"pair")?;
        let left = fields.number()?;
        let right = fields.last_number()?;
        let (left, right) = (left.value()?, right.value()?);
        let rules = self.limits.rules;
        ensure(
            left < rules && right < rules,
            CallFault::Rule { line: key.line() },
        )?;
        Ok(Step::Paired(left, right))
    }

    /// Refuses a record that has no place.
    fn place(self, key: Field, count: usize) -> Result<(), CallFault>
        ensures { result ≡ roomy (line_of (view key.entry)) count self.entry.limits.room }
    {
        ensure(
            count < self.limits.room,
            CallFault::Room { line: key.line() },
        )
    }

    /// A row of an included sheet.
    fn row_line(self, count: usize, key: Field, mut fields: Fields) -> Result<Step, CallFault>
        ensures { result ≡ row_line self.entry.limits count fields.entry.line (view key.entry) (fields_left fields.entry) }
    {
        let states = self.limits.states;
        self.place(key, count)?;
        all_numbers(fields)?;
        let left = fields.number()?.value()?;
        let right = right_states(states, fields)?;
        ensure(left < states, misplaced(key))?;
        Ok(Step::Row(Row { left, right }))
    }

    /// An item of an excluded sheet or of a hedge.
    fn item_line(self, count: usize, key: Field, mut fields: Fields) -> Result<Step, CallFault>
        ensures { result ≡ item_line self.entry.names.now self.entry.limits.room count fields.entry.line (view key.entry) (fields_left fields.entry) }
    {
        let name = fields.number()?;
        let child = fields.number()?;
        let next = fields.last_number()?;
        self.place(key, count)?;
        let item = Item {
            name: name.value()?,
            child: child.value()?,
            next: next.value()?,
        };
        // an `if`, and not `ensure`: with it the goal at the refusal stays open
        if item_fits(self.names, count, item) {
            Ok(Step::Item(item))
        } else {
            Err(misplaced(key))
        }
    }

    /// What the next line says, at the stage that the text has come to.
    pub(crate) fn judge(self, progress: Progress, line: Line) -> Result<Step, CallFault>
        ensures { result ≡ judged self.entry.limits self.entry.names.now progress line.entry.number line.entry.bytes.now }
    {
        let (key, fields) = line.parts()?;
        let count = progress.count;
        match progress.stage {
            Stage::Sheet => sheet_line(key, fields),
            Stage::Hedge => hedge_line(key, fields),
            Stage::Pair => self.pair_line(key, fields),
            Stage::Rows if key.is(b"row") => self.row_line(count, key, fields),
            Stage::Items if key.is(b"item") => self.item_line(count, key, fields),
            Stage::Rows | Stage::Items => end_line(count, key, fields),
            Stage::Ended => Err(LineFault::Form { line: key.line() }.into()),
        }
    }
}
