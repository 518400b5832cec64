//! Sheets: reading, judging, entering and writing.
ghost use Rattle.std.specs.Prelude.{◌≡◌, ℕ, length, IfOk};
ghost use Rattle.model.specs.Blank.{blank_row, blank_item};
ghost use Rattle.ledger.specs.Settled.{at};
ghost use Rattle.records.specs.Reading.{padded};
ghost use Rattle.writing.specs.Checks.{sheet_written};
ghost use Rattle.writing.specs.Texts.{sheet_text};
ghost use Rattle.writing.specs.Wrote.{filled};
ghost use Rattle.law.specs.Sheets.{sheet_outcome, sheet_answer, rows_left, items_left, OutcomeTrue};
ghost use Rattle.register.specs.Basis.{tables_of, machine_of};
ghost use Rattle.register.specs.Calls.{sheet_judged, sheet_settles, RefusedBlank};

use crate::basis::Basis;
use crate::register::Register;
use gaps::grounds::Grounds;
use judge::claim::Claim;
use judge::fault::SheetFault;
use judge::rows::{judge_excluded, judge_included};
use ledger::table::Ledger;
use model::rows::{Item, Row};
use model::sets::StateSet;
use model::verdict::Verdict;
use records::fault::CallFault;
use records::read::{blank, first, read_sheet};
use records::sheet::Sheet;
use writing::write::write_sheet;

impl Basis<'_, '_> {
    /// Judges what a sheet shows by its records, on these settled pairs; `sets` is working memory.
    fn judge(
        &self,
        ledger: &Ledger,
        sets: &mut [StateSet],
        sheet: Sheet,
        rows: &[Row],
        items: &[Item],
    ) -> Result<(), SheetFault>
        ensures { result ≡ sheet_judged (machine_of self.now) (at ledger.now) (length (tables_of self.now).bodies) (length sets.old) sheet rows.now items.now }
    {
        let setting = self.setting();
        let claim = Claim {
            left: sheet.left,
            right: sheet.right,
        };
        match sheet.verdict {
            Verdict::Included => {
                let rules = self.grammar.tables.bodies().len();
                let grounds = Grounds::new(first(rows, sheet.records), ledger, rules);
                judge_included(&setting, &grounds, claim)
            }
            Verdict::Excluded => {
                judge_excluded(&setting, sets, claim, first(items, sheet.records))
            }
        }
    }
}

impl Register<'_, '_> {
    /// Reads and judges a sheet, and enters it if it shows its claim.
    pub fn sheet(
        &mut self,
        text: &[u8],
        rows: &mut [Row],
        items: &mut [Item],
    ) -> Result<Sheet, SheetFault>
        ensures result { result ≡ sheet_answer (sheet_outcome (tables_of self.old.basis) (machine_of self.old.basis) (at self.old.ledger) (length rows.old) (length items.old) text.now) }
        ensures rows { rows.new ≡ padded blank_row (length rows.old) (rows_left (sheet_outcome (tables_of self.old.basis) (machine_of self.old.basis) (at self.old.ledger) (length rows.old) (length items.old) text.now)) }
        ensures items { items.new ≡ padded blank_item (length items.old) (items_left (sheet_outcome (tables_of self.old.basis) (machine_of self.old.basis) (at self.old.ledger) (length rows.old) (length items.old) text.now)) }
        ensures leaves { RefusedBlank result (length rows.old) (length items.old) rows.new items.new }
        ensures truth { OutcomeTrue (tables_of self.old.basis) (machine_of self.old.basis) (sheet_outcome (tables_of self.old.basis) (machine_of self.old.basis) (at self.old.ledger) (length rows.old) (length items.old) text.now) }
        ensures written { IfOk result (λ s. text.now ≡ sheet_text s rows.new items.new) }
        ensures settled { (c d : ℕ) → at self.new.ledger c d ≡ sheet_settles (at self.old.ledger) result c d }
        ensures basis { self.new.basis ≡ self.old.basis }
    {
        let sheet = read_sheet(text, self.basis.bounds(), rows, items)?;
        if let Err(fault) = self
            .basis
            .judge(&self.ledger, self.sets.as_mut_slice(), sheet, rows, items)
        {
            blank(rows, items);
            return Err(fault);
        }
        self.ledger
            .enter(sheet.left, sheet.right, Some(sheet.verdict));
        Ok(sheet)
    }

    /// Writes the sheet of these values into the output, and gives its length.
    pub fn write(
        &self,
        sheet: Sheet,
        rows: &[Row],
        items: &[Item],
        out: &mut [u8],
    ) -> Result<usize, CallFault>
        ensures result { result ≡ sheet_written (length (tables_of self.now.basis).bodies) (length (machine_of self.now.basis).states) (tables_of self.now.basis).names sheet rows.now items.now (length out.old) }
        ensures out { out.new ≡ filled result (sheet_text sheet rows.now items.now) out.old }
    {
        write_sheet(sheet, self.basis.bounds(), rows, items, out)
    }
}
