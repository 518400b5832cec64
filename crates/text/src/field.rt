//! Fields that borrow from their line and know its number.
ghost use Rattle.std.specs.Prelude.{◌≡◌, map};
ghost use Rattle.text.specs.Fields.{view, line_of, bytes_of, value_in, spelling_in, is_word, one_of, seen};

use crate::fault::LineFault;
use crate::form::{is_name, number};

/// A field of a line, by what is to stand in it.
#[derive(Clone, Copy)]
pub enum Field<'a> {
    /// A key or a fixed word.
    Key { line: usize, bytes: &'a [u8] },
    /// A number.
    Number { line: usize, bytes: &'a [u8] },
    /// A spelling.
    Spelling { line: usize, bytes: &'a [u8] },
}

impl<'a> Field<'a> {
    /// The number of its line.
    pub fn line(self) -> usize
        ensures { result ≡ line_of (view self.entry) }
    {
        match self {
            Field::Key { line, .. } | Field::Number { line, .. } | Field::Spelling { line, .. } =>
                line,
        }
    }

    /// Its bytes, a part of the text.
    pub fn bytes(self) -> &'a [u8]
        ensures { result.now ≡ bytes_of (view self.entry) }
    {
        match self {
            Field::Key { bytes, .. }
            | Field::Number { bytes, .. }
            | Field::Spelling { bytes, .. } => bytes,
        }
    }

    /// Whether it is a key and is this word.
    pub fn is(self, word: &[u8]) -> bool
        ensures { result ≡ is_word word.now (view self.entry) }
    {
        matches!(self, Field::Key { bytes, .. } if bytes == word)
    }

    /// What it stands for among words with what each stands for; another field is of a wrong form.
    pub fn one_of<T: Copy>(self, words: &[(&[u8], T)]) -> Result<T, LineFault>
        ensures { result ≡ one_of (view self.entry) (map (λ w. (w.0.now, w.1)) words.now) }
    {
        for (word, meaning) in words {
            if self.is(word) {
                return Ok(*meaning);
            }
        }
        Err(LineFault::Form { line: self.line() })
    }

    /// The value of a number field.
    pub fn value(self) -> Result<usize, LineFault>
        ensures { result ≡ value_in (view self.entry) }
    {
        let fault = LineFault::Number { line: self.line() };
        match self {
            Field::Number { bytes, .. } => number(bytes).ok_or(fault),
            Field::Key { .. } | Field::Spelling { .. } => Err(fault),
        }
    }

    /// The spelling of a spelling field, a part of the text.
    pub fn spelling(self) -> Result<&'a [u8], LineFault>
        ensures { seen (λ x. x.now) result ≡ spelling_in (view self.entry) }
    {
        match self {
            Field::Spelling { bytes, .. } if is_name(bytes) => Ok(bytes),
            _ => Err(LineFault::Spelling { line: self.line() }),
        }
    }
}
