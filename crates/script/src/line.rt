//! The lines of a script.
use crate::call::{Call, Lending};
use thiserror::Error;

/// A line that is no call of the script's format.
#[derive(Clone, Copy, Debug, PartialEq, Eq, Error)]
#[error("this line is no call")]
pub struct NoCall {}

/// A number of at most nine digits.
fn number(field: &str) -> Option<usize> {
    if field.len() > 9 || field.starts_with('+') {
        return None;
    }
    field.parse().ok()
}

/// The first number of a comma list, and what follows it.
fn number_first<'a>(list: &'a str) -> Option<(usize, &'a str)> {
    let (field, rest) = list.split_once(',')?;
    Some((number(field)?, rest))
}

/// `ROWS` or `ROWS,ITEMS`: as many items as rows where they are not given.
fn counts(list: &str) -> Option<Lending> {
    let (rows, items) = list.split_once(',').unwrap_or((list, list));
    Some(Lending {
        rows: number(rows)?,
        items: number(items)?,
    })
}

/// `A,B,ROWS[,ITEMS]`
fn question<'a>(list: &'a str) -> Option<Call<&'a str>> {
    let (left, tail) = number_first(list)?;
    let (right, last) = number_first(tail)?;
    let lent = counts(last)?;
    Some(Call::Question { left, right, lent })
}

/// `FILE,ROWS[,ITEMS]`
fn sheet<'a>(list: &'a str) -> Option<Call<&'a str>> {
    let (text, last) = list.split_once(',')?;
    let lent = counts(last)?;
    Some(Call::Sheet { text, lent })
}

/// `RULE,FILE,ROWS[,ITEMS]`
fn member<'a>(list: &'a str) -> Option<Call<&'a str>> {
    let (rule, tail) = number_first(list)?;
    let (text, last) = tail.split_once(',')?;
    let lent = counts(last)?;
    Some(Call::Member { rule, text, lent })
}

/// `A,B`
fn look_up<'a>(list: &'a str) -> Option<Call<&'a str>> {
    let (left, last) = number_first(list)?;
    let right = number(last)?;
    Some(Call::LookUp { left, right })
}

/// `ROOM`
fn write<'a>(list: &'a str) -> Option<Call<&'a str>> {
    let room = number(list)?;
    Some(Call::Write { room })
}

/// The call that stands after a key.
fn keyed<'a>(key: &str, list: &'a str) -> Option<Call<&'a str>> {
    match key {
        "question" => question(list),
        "sheet" => sheet(list),
        "member" => member(list),
        "lookup" => look_up(list),
        "write" => write(list),
        _ => None,
    }
}

/// Reads one line of a script, without its LF: its call, or nothing where it is empty or a comment.
/// Files are named as the script has them.
pub fn read_line<'a>(line: &'a str) -> Result<Option<Call<&'a str>>, NoCall> {
    if line.is_empty() || line.starts_with('#') {
        return Ok(None);
    }
    if line == "clear" {
        return Ok(Some(Call::Clear));
    }
    let (key, list) = line.split_once('=').ok_or(NoCall {})?;
    let call = keyed(key, list).ok_or(NoCall {})?;
    Ok(Some(call))
}
