//! Carries out calls one after the other.
use crate::call::{Entry, Reply};
use load::grammar::Grammar;
use model::relation::Relation;
use model::rows::{Item, Row};
use model::verdict::Verdict;
use records::read::{LIMIT, MOST};
use records::sheet::Sheet;
use register::register::Register;
use script::call::{Call, Lending};
use search::answer::Answer;
use std::alloc::{AllocError, Global};

/// One more than the rows or items that a call may be given: a call refuses each greater number as
/// it refuses this one.
pub const LENT: usize = MOST + 1;

/// The most bytes that a sheet has.
pub const ROOM: usize = LIMIT;

/// A sheet that can be written: its values, and the entry that has its rows and items.
#[derive(Clone, Copy)]
struct Last {
    sheet: Sheet,
    entry: usize,
}

/// An entry of a call that was lent nothing.
fn plain(heap: Global, reply: Reply) -> Entry {
    Entry {
        reply,
        rows: Vec::new(heap),
        items: Vec::new(heap),
        output: Vec::new(heap),
    }
}

/// The entry of a call that is lent so many rows and items.
fn lending<F: FnOnce(&mut [Row], &mut [Item]) -> Reply>(
    heap: Global,
    lent: Lending,
    call: F,
) -> Result<Entry, AllocError>
    requires { F.IsAlwaysCallable call }
{
    let mut rows = vec![in heap; Row::blank(); lent.rows.min(LENT)]?;
    let mut items = vec![in heap; Item::blank(); lent.items.min(LENT)]?;
    let reply = call(rows.as_mut_slice(), items.as_mut_slice());
    Ok(Entry {
        reply,
        rows,
        items,
        output: Vec::new(heap),
    })
}

/// Writing the last sheet.
fn write(
    heap: Global,
    register: &Register,
    entries: &[Entry],
    last: Option<Last>,
    room: usize,
) -> Result<Entry, AllocError> {
    let Some(Last { sheet, entry }) = last else {
        return Ok(plain(heap, Reply::Nothing));
    };
    let Some(from) = entries.get(entry) else {
        return Ok(plain(heap, Reply::Nothing));
    };
    let mut output = vec![in heap; 0u8; room.min(ROOM)]?;
    let reply = register
        .write(
            sheet,
            from.rows.as_slice(),
            from.items.as_slice(),
            output.as_mut_slice(),
        )
        .map_or_else(Reply::Refused, Reply::Wrote);
    Ok(Entry {
        reply,
        rows: Vec::new(heap),
        items: Vec::new(heap),
        output,
    })
}

/// Carries out one call.
fn step(
    heap: Global,
    register: &mut Register,
    entries: &[Entry],
    last: Option<Last>,
    call: Call<&[u8]>,
) -> Result<Entry, AllocError> {
    match call {
        Call::Question { left, right, lent } => lending(heap, lent, |rows, items| {
            register
                .question(left, right, rows, items)
                .map_or_else(Reply::Refused, Reply::Answered)
        }),
        Call::Sheet { text, lent } => lending(heap, lent, |rows, items| {
            register
                .sheet(text, rows, items)
                .map_or_else(Reply::Declined, Reply::Accepted)
        }),
        Call::Member { rule, text, lent } => lending(heap, lent, |rows, items| {
            register
                .member(rule, text, rows, items)
                .map_or_else(Reply::Refused, Reply::Tested)
        }),
        Call::Write { room } => write(heap, register, entries, last, room),
        Call::LookUp { left, right } => {
            let reply = register
                .look_up(left, right)
                .map_or_else(Reply::Refused, Reply::LookedUp);
            Ok(plain(heap, reply))
        }
        Call::Clear => {
            register.clear();
            Ok(plain(heap, Reply::Cleared))
        }
    }
}

/// The sheet of a question's answer, if it has a verdict.
fn sheet_of(left: usize, right: usize, answer: Answer) -> Option<Sheet> {
    let (verdict, records) = match answer {
        Answer::Included { records, .. } => (Verdict::Included, records),
        Answer::Excluded { records, .. } => (Verdict::Excluded, records),
        Answer::Wide { .. } | Answer::OutOfRows { .. } => return None,
    };
    Some(Sheet {
        verdict,
        left,
        right,
        records,
    })
}

/// The sheet that a call gave, if it gave one.
fn given(call: Call<&[u8]>, reply: Reply) -> Option<Sheet> {
    match reply {
        Reply::Answered(answer) => match call {
            Call::Question { left, right, .. } => sheet_of(left, right, answer),
            _ => None,
        },
        Reply::Accepted(sheet) => Some(sheet),
        _ => None,
    }
}

/// Carries out a succession of calls on one register from new, and gives an entry for each.
pub fn carry_out<'g, 't, R: Relation>(
    heap: Global,
    grammar: &'g Grammar<'t>,
    relation: &R,
    calls: &[Call<&[u8]>],
) -> Result<Vec<Entry>, AllocError> {
    let mut register = Register::new(heap, grammar, relation)?;
    let mut entries = Vec::new(heap);
    let mut last = None;
    for call in calls {
        let entry = step(heap, &mut register, entries.as_slice(), last, *call)?;
        if let Some(sheet) = given(*call, entry.reply) {
            last = Some(Last {
                sheet,
                entry: entries.len(),
            });
        }
        entries.push(entry)?;
    }
    Ok(entries)
}
