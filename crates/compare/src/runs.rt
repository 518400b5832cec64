//! Replaying a script.
use crate::lines::{ItemLine, RowLine};
use crate::named::Named;
use crate::tell::{Counts, load_text, read_file, show_refusal};
use load::grammar::Grammar;
use model::verdict::Verdict;
use records::read::counts;
use run::call::{Entry, Reply};
use run::carry::carry_out;
use script::call::Call;
use script::line::read_line;
use search::answer::Answer;
use std::fs;
use std::io::Write;

/// The bytes of the file that a call names, or nothing where it names none.
fn text_of(rt: &HostRuntime, call: Call<&str>) -> anyhow::Result<Vec<u8>> {
    match call {
        Call::Sheet { text: file, .. } | Call::Member { text: file, .. } => read_file(rt, file),
        _ => Ok(Vec::new(rt.alloc())),
    }
}

/// Reads the calls of a script and the text of each, up to a line that is no call; true where there is
/// none such. (Two lists: the borrow checker does not cover a loop that borrows from pairs of both. A flag
/// beside them: the calls before a wrong line are carried out all the same.)
fn read_script<'a>(
    rt: &HostRuntime,
    script: &'a str,
    calls: &mut Vec<Call<&'a str>>,
    texts: &mut Vec<Vec<u8>>,
) -> anyhow::Result<bool> {
    for line in script.lines() {
        match read_line(line) {
            Ok(None) => {}
            Ok(Some(call)) => {
                texts.push(text_of(rt, call)?)?;
                calls.push(call)?;
            }
            Err(error) => {
                eprintln!(rt; "{error}: {line}")?;
                return Ok(false);
            }
        }
    }
    Ok(true)
}

/// A call of the script with the text of its file.
fn with_text<'a>(call: Call<&str>, text: &'a [u8]) -> Call<&'a [u8]> {
    match call {
        Call::Question { left, right, lent } => Call::Question { left, right, lent },
        Call::Sheet { lent, .. } => Call::Sheet { text, lent },
        Call::Member { rule, lent, .. } => Call::Member { rule, text, lent },
        Call::Write { room } => Call::Write { room },
        Call::LookUp { left, right } => Call::LookUp { left, right },
        Call::Clear => Call::Clear,
    }
}

/// The answer line of a question.
fn show_answer(rt: &HostRuntime, answer: Answer) -> anyhow::Result<()> {
    match answer {
        Answer::Included { met, records } => println!(rt; "included met={met} records={records}")?,
        Answer::Excluded { met, records } => println!(rt; "excluded met={met} records={records}")?,
        Answer::Wide { met } => println!(rt; "wide met={met} records=0")?,
        Answer::OutOfRows { met } => println!(rt; "out-of-rows met={met} records=0")?,
    }
    Ok(())
}

/// How many rows and items an entry's call filled.
fn filled(reply: Reply) -> (usize, usize) {
    match reply {
        Reply::Answered(Answer::Included { records, .. }) => (records, 0),
        Reply::Answered(Answer::Excluded { records, .. }) => (0, records),
        Reply::Accepted(sheet) => match sheet.verdict {
            Verdict::Included => (sheet.records, 0),
            Verdict::Excluded => (0, sheet.records),
        },
        Reply::Tested(membership) => (0, membership.records),
        _ => (0, 0),
    }
}

/// The records that a call left, a line each, and how many rows and items lie beyond them.
fn show_records(rt: &HostRuntime, entry: &Entry) -> anyhow::Result<()> {
    let given = entry.rows.len();
    if counts(given, entry.items.len()).is_err() {
        return Ok(());
    }
    let (rows, items) = filled(entry.reply);
    for row in entry.rows.iter().take(rows) {
        let line = RowLine(*row);
        println!(rt; "{line}")?;
    }
    for item in entry.items.iter().take(items) {
        let line = ItemLine(*item);
        println!(rt; "{line}")?;
    }
    let beyond_rows = given.saturating_sub(rows);
    let beyond_items = given.saturating_sub(items);
    println!(rt; "blank rows={beyond_rows} items={beyond_items}")?;
    Ok(())
}

/// The answer line of an entry.
fn show_reply(rt: &HostRuntime, entry: &Entry) -> anyhow::Result<()> {
    match entry.reply {
        Reply::Answered(answer) => show_answer(rt, answer)?,
        Reply::Accepted(sheet) => {
            let verdict = sheet.verdict;
            let records = sheet.records;
            println!(rt; "accepted {verdict} records={records}")?;
        }
        Reply::Tested(membership) => {
            let records = membership.records;
            let word = if membership.yes { "yes" } else { "no" };
            println!(rt; "member {word} records={records}")?;
        }
        Reply::Wrote(length) => {
            println!(rt; "wrote length={length}")?;
            if let Some(text) = entry.output.as_slice().get(..length) {
                rt.stdout().write_all(text)?;
            }
        }
        Reply::Nothing => println!(rt; "nothing")?,
        Reply::LookedUp(Some(verdict)) => println!(rt; "{verdict}")?,
        Reply::LookedUp(None) => println!(rt; "unsettled")?,
        Reply::Cleared => println!(rt; "cleared")?,
        Reply::Refused(fault) => show_refusal(rt, fault)?,
        Reply::Declined(fault) => show_refusal(rt, fault)?,
    }
    Ok(())
}

/// The line for a loaded grammar.
fn show_loaded(rt: &HostRuntime, grammar: &Grammar) -> anyhow::Result<()> {
    let Counts {
        names,
        nodes,
        rules,
        states,
        derivatives,
    } = Counts::of(grammar);
    println!(rt;
        "loaded names={names} nodes={nodes} rules={rules} states={states} derivatives={derivatives}"
    )?;
    Ok(())
}

/// Replays a script's calls on one register of the grammar, and prints each answer.
fn replay_on(
    rt: &HostRuntime,
    grammar: &Grammar,
    relation: Named,
    script: &str,
) -> anyhow::Result<bool> {
    let mut spelled = Vec::new(rt.alloc());
    let mut texts = Vec::new(rt.alloc());
    let whole = read_script(rt, script, &mut spelled, &mut texts)?;
    let mut calls = Vec::new(rt.alloc());
    for (call, text) in spelled.iter().zip(texts.iter()) {
        calls.push(with_text(*call, text.as_slice()))?;
    }
    let entries = carry_out(rt.alloc(), grammar, &relation, calls.as_slice())?;
    for entry in &entries {
        show_reply(rt, entry)?;
        show_records(rt, entry)?;
    }
    Ok(whole)
}

/// Replays a script on one register from new.
pub fn replay(rt: &HostRuntime, path: &str, relation: Named, script: &str) -> anyhow::Result<bool> {
    let text = read_file(rt, path)?;
    let script = fs::read_to_string(rt, script)?;
    match load_text(rt, text.as_slice())? {
        Ok(grammar) => {
            show_loaded(rt, &grammar)?;
            replay_on(rt, &grammar, relation, script.as_str())
        }
        Err(fault) => {
            show_refusal(rt, fault)?;
            Ok(true)
        }
    }
}
