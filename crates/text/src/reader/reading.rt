//! How the reader goes through its text.
ghost use Rattle.std.specs.Prelude.{◌≡◌, ◌+◌, [], ◌∷◌, MatchOption};
ghost use Rattle.text.specs.Pieces.{lines};
ghost use Rattle.text.specs.Cursors.{lines_left};

use super::Reader;
use crate::line::{Line, cut};

impl<'a> Reader<'a> {
    /// A reader before the first line of the text.
    pub fn new(text: &'a [u8]) -> Reader<'a>
        ensures lines { lines_left result ≡ lines text.now }
        ensures count { result.line ≡ 0 }
    {
        Reader {
            text,
            at: 0,
            line: 0,
        }
    }

    /// The number that the next line has, or would have where none is left.
    pub fn next_number(&self) -> usize
        ensures { result ≡ self.now.line + 1 }
    {
        self.line + 1
    }

    /// The next line with its number, if one is left.
    pub fn next_line(&mut self) -> Option<Line<'a>>
        ensures given { MatchOption result (lines_left self.old ≡ []) (λ l. lines_left self.old ≡ l.bytes.now ∷ lines_left self.new) }
        ensures counted { MatchOption result (self.new.line ≡ self.old.line) (λ l. (l.number ≡ self.old.line + 1) × (self.new.line ≡ self.old.line + 1)) }
    {
        if self.at >= self.text.len() {
            return None;
        }
        let (bytes, _) = cut(&self.text[self.at..], b'\n');
        self.at = (self.at + bytes.len() + 1).min(self.text.len());
        self.line += 1;
        Some(Line::new(self.line, bytes))
    }
}
