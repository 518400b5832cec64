//! Laying out the message that items spell. (The two functions that call one another take all that they need
//! as parameters: one number falls at each call.)
use model::rows::Item;
use std::io;

/// The spelling of the name or rule of this number; spellings are ASCII.
pub fn name_of<'a>(spellings: &[&'a [u8]], number: usize) -> &'a str {
    match spellings.get(number) {
        Some(spelling) => std::str::from_utf8(spelling).unwrap_or("?"),
        None => "?",
    }
}

/// Blanks before a line of this depth.
fn indent(rt: &HostRuntime, depth: usize) -> io::Result<()> {
    for _ in 0..depth {
        print!(rt; "  ")?;
    }
    Ok(())
}

/// The item of a number that counts from 1.
fn item_at(items: &[Item], number: usize) -> Option<Item> {
    items.get(number.checked_sub(1)?).copied()
}

/// Prints the hedge that begins at an item, a line for each item and what is inside it further in, as
/// long as lines are left. Gives the lines that are left.
#[cycle(show_hedge_show_rest)]
pub fn show_hedge(
    rt: &HostRuntime,
    spellings: &[&[u8]],
    items: &[Item],
    number: usize,
    depth: usize,
    lines: usize,
) -> io::Result<usize> {
    let Some(item) = item_at(items, number) else {
        return Ok(lines);
    };
    if lines == 0 {
        return Ok(0);
    }
    let name = name_of(spellings, item.name);
    indent(rt, depth)?;
    if item.child == 0 || item.child >= number {
        println!(rt; "{name}")?;
        return show_rest(rt, spellings, items, number, item.next, depth, lines - 1);
    }
    println!(rt; "{name}[")?;
    let left = show_hedge(
        rt,
        spellings,
        items,
        item.child,
        depth.saturating_add(1),
        lines - 1,
    )?;
    indent(rt, depth)?;
    println!(rt; "]")?;
    show_rest(rt, spellings, items, number, item.next, depth, left)
}

/// Prints what follows the item of this number.
#[cycle(show_hedge_show_rest)]
fn show_rest(
    rt: &HostRuntime,
    spellings: &[&[u8]],
    items: &[Item],
    number: usize,
    next: usize,
    depth: usize,
    lines: usize,
) -> io::Result<usize> {
    if next >= number {
        return Ok(lines);
    }
    show_hedge(rt, spellings, items, next, depth, lines)
}
