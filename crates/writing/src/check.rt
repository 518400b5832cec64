//! What writing refuses.
ghost use Rattle.std.specs.Prelude.{◌≡◌, ◌≤◌, length};
ghost use Rattle.writing.specs.Checks.{row_fits, places_checked, pair_checked, sheet_checked};

use crate::page::Page;
use crate::record::Record;
use model::rows::Row;
use records::fault::CallFault;
use records::read::{counts, first};
use records::sheet::{Bounds, Sheet, Verdict};
use text::fault::{TableFault, ensure};

/// Whether a row's left state and all its right states are below the number of states.
pub fn row_fits(states: usize, row: Row) -> bool
    ensures { result ≡ row_fits states row }
{
    let bits = row.right.bits;
    row.left < states && (states >= 128 || bits >> states == 0)
}

/// Refuses the first of so many records that has no place or does not fit it.
fn check_records<R: Record>(bounds: Bounds, count: usize, records: &[R]) -> Result<(), CallFault>
    requires { length records.now ≤ 512 }
    ensures { result ≡ places_checked (R.fits_after bounds.entry.states bounds.entry.names.now) 0 count records.now }
{
    for (i, record) in first(records, count).iter().enumerate() {
        if !record.fits(bounds, i) {
            return Err(TableFault::Place { line: i + 3 }.into());
        }
    }
    let room = records.len();
    ensure(count <= room, CallFault::Room { line: room + 3 })
}

/// Refuses a pair with an absent rule.
fn check_pair(rules: usize, sheet: Sheet) -> Result<(), CallFault>
    ensures { result ≡ pair_checked rules sheet }
{
    ensure(
        sheet.left < rules && sheet.right < rules,
        CallFault::Rule { line: 2 },
    )
}

impl Page<'_> {
    /// Refuses what reading the sheet's text would refuse.
    pub(crate) fn check(self, bounds: Bounds) -> Result<(), CallFault>
        ensures { result ≡ sheet_checked bounds.entry.rules bounds.entry.states bounds.entry.names.now self.entry.sheet self.entry.rows.now self.entry.items.now }
    {
        let count = self.sheet.records;
        counts(self.rows.len(), self.items.len())?;
        check_pair(bounds.rules, self.sheet)?;
        match self.sheet.verdict {
            Verdict::Included => check_records(bounds, count, self.rows),
            Verdict::Excluded => check_records(bounds, count, self.items),
        }
    }
}
