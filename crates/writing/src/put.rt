//! Bytes, words, numbers and records, put into a lent output.
ghost use Rattle.std.specs.Prelude.{◌≡◌, ◌^◌, ◌-◌, [], ◌∷◌, min, map, take, length, decimal};
ghost use Rattle.writing.specs.Wrote.{laid, Wrote};
ghost use Rattle.writing.specs.Texts.{further, line_text, states_text, all_texts, records_text, verdict_line};
ghost use Rattle.writing.specs.Pages.{page_text};

use crate::page::Page;
use crate::record::Record;
use itoa::Buffer;
use model::sets::StateSet;
use records::read::first;
use records::sheet::Verdict;

/// A lent output with the next place. Where the output has no such place nothing is altered, so
/// that an empty output gives the length alone. The place stops at the greatest number.
#[derive(Drop)]
pub(crate) struct Writer<'a> {
    out: &'a mut [u8],
    at: usize,
}

impl Writer<'_> {
    /// Puts a byte.
    pub(crate) fn byte(&mut self, byte: u8)
        ensures { Wrote self.old (byte ∷ []) self.new }
    {
        let at = self.at;
        let out = &mut *self.out;
        // not `get_mut`: after it the check knows the slice's length and no element of it
        if at < out.len() {
            out[at] = byte;
        }
        self.at = at.saturating_add(1);
    }

    /// Puts a word.
    pub(crate) fn word(&mut self, word: &[u8])
        ensures { Wrote self.old word.now self.new }
    {
        for byte in word {
            self.byte(*byte);
        }
    }

    /// Puts a number in plain decimal.
    pub(crate) fn number(&mut self, n: usize)
        ensures { Wrote self.old (decimal n) self.new }
    {
        let mut digits = Buffer::new();
        self.word(digits.format(n).as_bytes());
    }

    /// Puts a further number of a line, behind its comma.
    fn further(&mut self, n: usize)
        ensures { Wrote self.old (44 ∷ decimal n) self.new }
    {
        self.byte(b',');
        self.number(n);
    }

    /// Puts the further numbers of a line.
    fn numbers(&mut self, numbers: &[usize])
        ensures { Wrote self.old (further (map decimal numbers.now)) self.new }
    {
        for n in numbers {
            self.further(*n);
        }
    }

    /// Puts the states of a set, rising.
    pub(crate) fn states(&mut self, set: StateSet)
        ensures { Wrote self.old (states_text set.bits) self.new }
    {
        for q in 0..128 {
            if set.contains(q) {
                self.further(q);
            }
        }
    }

    /// Puts a line of numbers.
    pub(crate) fn line(&mut self, key: &[u8], first: usize, others: &[usize])
        ensures { Wrote self.old (line_text key.now (decimal first) (map decimal others.now)) self.new }
    {
        self.word(key);
        self.byte(b'=');
        self.number(first);
        self.numbers(others);
        self.byte(b'\n');
    }

    /// Puts the first of the records, at most so many, one after the other.
    fn records<R: Record>(&mut self, count: usize, records: &[R])
        ensures { Wrote self.old (all_texts R.text (take count records.now)) self.new }
    {
        for record in first(records, count) {
            record.put(self);
        }
    }

    /// Puts the first line of a sheet. (Whole lines, and not the verdict's `Display`: bytes without a formatter.)
    fn verdict(&mut self, verdict: Verdict)
        ensures { Wrote self.old (verdict_line verdict) self.new }
    {
        match verdict {
            Verdict::Included => self.word(b"sheet=included\n"),
            Verdict::Excluded => self.word(b"sheet=excluded\n"),
        }
    }

    /// Puts the records of a sheet.
    fn page_records(&mut self, page: Page)
        ensures { Wrote self.old (records_text page.entry.sheet.verdict page.entry.sheet.records page.entry.rows.now page.entry.items.now) self.new }
    {
        let count = page.sheet.records;
        match page.sheet.verdict {
            Verdict::Included => self.records(count, page.rows),
            Verdict::Excluded => self.records(count, page.items),
        }
    }

    /// Puts a sheet.
    fn page(&mut self, page: Page)
        ensures { Wrote self.old (page_text page.entry) self.new }
    {
        let sheet = page.sheet;
        self.verdict(sheet.verdict);
        self.line(b"pair", sheet.left, &[sheet.right]);
        self.page_records(page);
        self.line(b"end", sheet.records, &[]);
    }
}

impl Page<'_> {
    /// Puts the sheet from the output's first place on, and answers its length.
    pub(crate) fn put(self, out: &mut [u8]) -> usize
        ensures bytes { out.new ≡ laid out.old 0 (page_text self.entry) }
        ensures length { result ≡ min (length (page_text self.entry)) (2 ^ 64 - 1) }
    {
        let mut writer = Writer { out, at: 0 };
        writer.page(self);
        writer.at
    }
}
