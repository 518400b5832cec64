//! Writing a sheet.
ghost use Rattle.std.specs.Prelude.{◌≡◌, length};
ghost use Rattle.writing.specs.Texts.{sheet_text};
ghost use Rattle.writing.specs.Checks.{sheet_written};
ghost use Rattle.writing.specs.Wrote.{filled};

use crate::page::Page;
use model::rows::{Item, Row};
use records::fault::CallFault;
use records::sheet::{Bounds, Sheet};

/// Writes the text of a sheet with its records, the first of the rows or items, and answers its
/// length. It refuses what reading that text would refuse, and an output that is shorter than the
/// text; then the output is as before. Past the text no byte of it is altered.
pub fn write_sheet(
    sheet: Sheet,
    bounds: Bounds,
    rows: &[Row],
    items: &[Item],
    out: &mut [u8],
) -> Result<usize, CallFault>
    ensures result { result ≡ sheet_written bounds.entry.rules bounds.entry.states bounds.entry.names.now sheet rows.now items.now (length out.old) }
    ensures out { out.new ≡ filled result (sheet_text sheet rows.now items.now) out.old }
{
    let page = Page { sheet, rows, items };
    page.check(bounds)?;
    let length = page.put(&mut []);
    if length > out.len() {
        return Err(CallFault::Output);
    }
    page.put(out);
    Ok(length)
}
