// Books: lists in which each record stands once. A record that is there already keeps its number,
// a new one gets the next.
ghost use Rattle.std.specs.Prelude.{◌≡◌, [], ◌++◌, IfOk, OnOk};
ghost use Rattle.theory.specs.Count.{entered};
ghost use Rattle.expressions.specs.Records.{same_derivative};
ghost use Rattle.states.specs.Book.{Entered};

use crate::error::Limit;
use book::find;
use model::machine::Derivative;
use std::alloc::Global;

// At most so many derivatives.
pub const DERIVATIVES: usize = 512;

// Enters x in a book of at most `limit` records and gives its number. After an error the book is as
// it was. (No `Book` of crate `book`: that one stands over lent memory, and this list grows while a
// grammar is loaded. Both look a record up by `find`.)
pub fn enter<T: PartialEq + Copy>(records: &mut Vec<T>, limit: usize, x: T) -> Result<usize, Limit>
    ensures { Entered T.eq limit records.old.items x result records.new.items }
{
    if let Some(number) = find(records.as_slice(), &x) {
        return Ok(number);
    }
    let number = records.len();
    if number >= limit {
        return Err(Limit::TooLarge);
    }
    records.push(x)?;
    Ok(number)
}

// Enters derivatives in a list.
fn carry(list: &mut Vec<Derivative>, derivatives: &[Derivative]) -> Result<(), Limit>
    ensures { OnOk result (list.new.items ≡ entered same_derivative list.old.items derivatives.now) }
{
    for derivative in derivatives {
        enter(list, DERIVATIVES, *derivative)?;
    }
    Ok(())
}

// The derivatives of two lists, each once.
pub fn once(
    heap: Global,
    first: &[Derivative],
    second: &[Derivative],
) -> Result<Vec<Derivative>, Limit>
    ensures { IfOk result (λ v. v.items ≡ entered same_derivative [] (first.now ++ second.now)) }
{
    let mut list = Vec::new(heap);
    carry(&mut list, first)?;
    carry(&mut list, second)?;
    Ok(list)
}
