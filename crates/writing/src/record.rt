//! The records of a sheet, rows and items alike.
ghost use Rattle.std.specs.Prelude.{◌≡◌, ℕ, Bool, List};
ghost use Rattle.model.specs.declared.names.Name.{Name as NameType};
ghost use Rattle.records.specs.Places.{item_fits};
ghost use Rattle.writing.specs.Checks.{row_fits};
ghost use Rattle.writing.specs.Texts.{row_text, item_text};
ghost use Rattle.writing.specs.Wrote.{Wrote};

use crate::check::row_fits;
use crate::put::Writer;
use model::rows::{Item, Row};
use records::place::item_fits;
use records::sheet::Bounds;

/// A record of a sheet: whether it is allowed after so many others, and its text.
pub(crate) trait Record {
    ghost fits_after: { ℕ → List NameType → ℕ → Self → Bool };

    ghost text: { Self → List ℕ };

    /// Whether it is allowed after `earlier` others.
    fn fits(&self, bounds: Bounds, earlier: usize) -> bool
        ensures { result ≡ fits_after bounds.entry.states bounds.entry.names.now earlier self.now };

    /// Puts its line.
    fn put(&self, writer: &mut Writer)
        ensures { Wrote writer.old (text self.now) writer.new };
}

impl Record for Row {
    ghost fits_after = { λ states _ _ r. row_fits states r };

    ghost text = { row_text };

    fn fits(&self, bounds: Bounds, _earlier: usize) -> bool {
        row_fits(bounds.states, *self)
    }

    fn put(&self, writer: &mut Writer) {
        writer.word(b"row=");
        writer.number(self.left);
        writer.states(self.right);
        writer.byte(b'\n');
    }
}

impl Record for Item {
    ghost fits_after = { λ _ names earlier i. item_fits names earlier i };

    ghost text = { item_text };

    fn fits(&self, bounds: Bounds, earlier: usize) -> bool {
        item_fits(bounds.names, earlier, *self)
    }

    fn put(&self, writer: &mut Writer) {
        writer.line(b"item", self.name, &[self.child, self.next]);
    }
}
