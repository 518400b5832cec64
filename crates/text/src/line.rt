//! Lines and their fields.
ghost use Rattle.std.specs.Prelude.{◌≡◌, ◌≤◌, ◌==◌, length, IfOk};
ghost use Rattle.std.specs.List.{position};
ghost use Rattle.std.specs.Option.{option_map};
ghost use Rattle.text.specs.Pieces.{before, after, whole_text};
ghost use Rattle.text.specs.Fields.{view, seen, key, number, spelling};
ghost use Rattle.text.specs.Cursors.{fields_left, next_field, taken, last_number, Passed, ended, none_left, line_parts};

use crate::fault::{LineFault, ensure};
use crate::field::Field;

/// A line of the text, without its LF.
#[derive(Clone, Copy)]
pub struct Line<'a> {
    number: usize,
    bytes: &'a [u8],
}

/// The fields of a line that are yet to be taken.
#[derive(Clone, Copy)]
pub struct Fields<'a> {
    line: usize,
    rest: Option<&'a [u8]>,
}

/// Refuses a text that is empty, longer than the limit or without a last LF.
pub fn whole(text: &[u8], limit: usize) -> Result<(), LineFault>
    ensures { result ≡ whole_text limit text.now }
{
    match text.last() {
        Some(b'\n') if text.len() <= limit => Ok(()),
        _ => Err(LineFault::Form { line: 1 }),
    }
}

/// Where the first mark stands, if there is one.
fn mark_at(bytes: &[u8], mark: u8) -> Option<usize>
    ensures { result ≡ position (λ b. b == mark) bytes.now }
{
    bytes.iter().position(|b| *b == mark)
}

/// What stands before the first mark, and what stands after it if there is one.
pub(crate) fn cut<'a>(bytes: &'a [u8], mark: u8) -> (&'a [u8], Option<&'a [u8]>)
    ensures front { result.0.now ≡ before mark bytes.now }
    ensures back { option_map (λ x. x.now) result.1 ≡ after mark bytes.now }
{
    match mark_at(bytes, mark) {
        Some(at) => (&bytes[..at], Some(&bytes[at + 1..])),
        None => (bytes, None),
    }
}

impl<'a> Line<'a> {
    /// The line of this number and these bytes.
    pub(crate) fn new(number: usize, bytes: &'a [u8]) -> Line<'a>
        ensures number { result.number ≡ number }
        ensures bytes { result.bytes.now ≡ bytes.now }
    {
        Line { number, bytes }
    }

    /// Its number, from 1.
    pub fn number(self) -> usize
        ensures { result ≡ self.entry.number }
    {
        self.number
    }

    /// Its key, which stands before the first `=`, and the fields after that; without `=` the key is wrong.
    pub fn parts(self) -> Result<(Field<'a>, Fields<'a>), LineFault>
        ensures given { seen (λ p. (view p.0, fields_left p.1)) result ≡ line_parts self.entry.number self.entry.bytes.now }
        ensures line { IfOk result (λ p. p.1.line ≡ self.entry.number) }
    {
        let line = self.number;
        let (bytes, rest) = cut(self.bytes, b'=');
        if rest.is_none() {
            return Err(LineFault::Form { line });
        }
        Ok((Field::Key { line, bytes }, Fields { line, rest }))
    }
}

// `key`, `number` and `spelling` are one method each over `take`, since a call reads best with the kind in its name.
impl<'a> Fields<'a> {
    /// The number of its line.
    pub fn line(self) -> usize
        ensures { result ≡ self.entry.line }
    {
        self.line
    }

    /// Whether no field is left.
    pub fn is_done(self) -> bool
        ensures { result ≡ none_left (fields_left self.entry) }
    {
        self.rest.is_none()
    }

    /// Takes the next field, or refuses the line that ends before it.
    fn take(&mut self) -> Result<&'a [u8], LineFault>
        ensures given { seen (λ x. x.now) result ≡ next_field self.old.line (fields_left self.old) }
        ensures left { Passed self.old self.new }
    {
        let Some(left) = self.rest else {
            return Err(LineFault::Form { line: self.line });
        };
        let (bytes, rest) = cut(left, b',');
        self.rest = rest;
        Ok(bytes)
    }

    /// Takes the next field as a fixed word.
    pub fn key(&mut self) -> Result<Field<'a>, LineFault>
        ensures given { seen view result ≡ taken key self.old.line (fields_left self.old) }
        ensures left { Passed self.old self.new }
    {
        let line = self.line;
        self.take().map(|bytes| Field::Key { line, bytes })
    }

    /// Takes the next field as a number.
    pub fn number(&mut self) -> Result<Field<'a>, LineFault>
        ensures given { seen view result ≡ taken number self.old.line (fields_left self.old) }
        ensures left { Passed self.old self.new }
    {
        let line = self.line;
        self.take().map(|bytes| Field::Number { line, bytes })
    }

    /// Takes the next field as a spelling.
    pub fn spelling(&mut self) -> Result<Field<'a>, LineFault>
        ensures given { seen view result ≡ taken spelling self.old.line (fields_left self.old) }
        ensures left { Passed self.old self.new }
    {
        let line = self.line;
        self.take().map(|bytes| Field::Spelling { line, bytes })
    }

    /// Refuses a line that has a field left.
    pub fn end(self) -> Result<(), LineFault>
        ensures { result ≡ ended self.entry.line (fields_left self.entry) }
    {
        ensure(self.is_done(), LineFault::Form { line: self.line })
    }

    /// Takes the next field as a number, and refuses a line that has another field left.
    pub fn last_number(mut self) -> Result<Field<'a>, LineFault>
        ensures { seen view result ≡ last_number self.entry.line (fields_left self.entry) }
    {
        let number = self.number()?;
        self.end()?;
        Ok(number)
    }
}
