//! Questions, sheets and membership tests, told in words.
use crate::command::Question;
use crate::hedge::{name_of, show_hedge};
use crate::named::Named;
use crate::tell::{Counts, load_text, read_file, tell_refusal};
use load::grammar::Grammar;
use model::rows::{Item, Row};
use model::verdict::Verdict;
use records::read::MOST;
use records::sheet::Sheet;
use register::register::Register;
use run::carry::{LENT, ROOM};
use search::answer::Answer;
use std::alloc::{AllocError, Global};
use std::fs;
use std::io::Write;

/// The most lines that a message is laid out in.
const LINES: usize = 400;

/// Rows and items that calls are lent.
#[derive(Drop)]
struct Lent {
    rows: Vec<Row>,
    items: Vec<Item>,
}

impl Lent {
    /// So many blank rows and as many blank items.
    fn new(heap: Global, count: usize) -> Result<Lent, AllocError> {
        Ok(Lent {
            rows: vec![in heap; Row::blank(); count]?,
            items: vec![in heap; Item::blank(); count]?,
        })
    }
}

/// Goes on with the grammar that a text spells, or tells why it is refused.
fn with_grammar<F: FnOnce(&Grammar) -> anyhow::Result<bool>>(
    rt: &HostRuntime,
    text: &[u8],
    then: F,
) -> anyhow::Result<bool>
    requires { F.IsAlwaysCallable then }
{
    match load_text(rt, text)? {
        Ok(grammar) => then(&grammar),
        Err(fault) => {
            tell_refusal(rt, "grammar", fault)?;
            Ok(false)
        }
    }
}

/// The number of the rule with this spelling, or a line that says that there is none.
fn find_rule(rt: &HostRuntime, grammar: &Grammar, spelling: &str) -> anyhow::Result<Option<usize>> {
    let spelling_bytes = spelling.as_bytes();
    let found = grammar
        .tables
        .rules()
        .iter()
        .position(|rule| *rule == spelling_bytes);
    if found.is_none() {
        println!(rt; "the grammar has no rule {spelling}")?;
    }
    Ok(found)
}

/// The counts of a grammar.
fn tell_counts(rt: &HostRuntime, path: &str, grammar: &Grammar) -> anyhow::Result<()> {
    let Counts {
        names,
        nodes,
        rules,
        states,
        derivatives,
    } = Counts::of(grammar);
    println!(rt;
        "grammar {path}: {names} names, {nodes} nodes, {rules} rules, {states} states, {derivatives} derivatives"
    )?;
    Ok(())
}

/// Writes a sheet, prints it, and says whether a fresh register accepts it.
fn tell_sheet(
    rt: &HostRuntime,
    register: &Register,
    relation: Named,
    sheet: Sheet,
    lent: &mut Lent,
) -> anyhow::Result<()> {
    let mut output = vec![in rt.alloc(); 0u8; ROOM]?;
    let records = sheet.records;
    match register.write(
        sheet,
        lent.rows.as_slice(),
        lent.items.as_slice(),
        output.as_mut_slice(),
    ) {
        Err(fault) => tell_refusal(rt, "writing the sheet was", fault),
        Ok(length) => {
            output.truncate(length);
            println!(rt; "evidence, a sheet with {records} records:")?;
            rt.stdout().write_all(output.as_slice())?;
            let mut fresh = Register::new(rt.alloc(), register.basis.grammar, &relation)?;
            match fresh.sheet(
                output.as_slice(),
                lent.rows.as_mut_slice(),
                lent.items.as_mut_slice(),
            ) {
                Ok(_) => println!(rt; "The sheet was read back and accepted by a fresh register.")?,
                Err(_) => println!(rt; "A fresh register does not accept this sheet.")?,
            }
            Ok(())
        }
    }
}

/// Lays out the message that the first items spell.
fn tell_message(
    rt: &HostRuntime,
    grammar: &Grammar,
    items: &[Item],
    records: usize,
) -> anyhow::Result<()> {
    if records == 0 {
        println!(rt; "  (the empty message)")?;
        return Ok(());
    }
    let left = show_hedge(rt, grammar.tables.spellings(), items, records, 1, LINES)?;
    if left == 0 {
        println!(rt; "  .. (the message goes on; the sheet has it whole)")?;
    }
    Ok(())
}

/// Tells a verdict with its evidence. True only at "included".
fn tell_verdict(
    rt: &HostRuntime,
    register: &Register,
    question: Question<'_>,
    sheet: Sheet,
    met: usize,
    lent: &mut Lent,
) -> anyhow::Result<bool> {
    let Question {
        left,
        right,
        relation,
        ..
    } = question;
    match sheet.verdict {
        Verdict::Included => {
            println!(rt; "verdict: INCLUDED. Every message of {left} is accepted by {right}.")?
        }
        Verdict::Excluded => {
            println!(rt;
                "verdict: EXCLUDED. {left} can send a message that {right} does not accept:"
            )?;
            tell_message(
                rt,
                register.basis.grammar,
                lent.items.as_slice(),
                sheet.records,
            )?;
        }
    }
    println!(rt; "rows met: {met}")?;
    tell_sheet(rt, register, relation, sheet, lent)?;
    Ok(sheet.verdict == Verdict::Included)
}

/// Tells the answer of a question on the rules of this pair, with its evidence. True only at
/// "included".
fn tell_answer(
    rt: &HostRuntime,
    register: &Register,
    question: Question<'_>,
    pair: (usize, usize),
    answer: Answer,
    lent: &mut Lent,
) -> anyhow::Result<bool> {
    let (verdict, met, records) = match answer {
        Answer::Included { met, records } => (Verdict::Included, met, records),
        Answer::Excluded { met, records } => (Verdict::Excluded, met, records),
        Answer::Wide { met } => {
            let right = question.right;
            println!(rt;
                "no verdict: WIDE. After {met} rows an inequality has more than 8 pairs on its right under one name."
            )?;
            println!(rt;
                "What to do: split the rule {right} so that fewer of its parts share one name at one place."
            )?;
            return Ok(false);
        }
        Answer::OutOfRows { met } => {
            println!(rt; "no verdict: OUT OF ROWS. More than {met} inequalities have to be met.")?;
            println!(rt; "What to do: give more rows, up to 512, or ask about smaller rules.")?;
            return Ok(false);
        }
    };
    let sheet = Sheet {
        verdict,
        left: pair.0,
        right: pair.1,
        records,
    };
    tell_verdict(rt, register, question, sheet, met, lent)
}

/// Asks a question on a register from new.
fn ask_on(rt: &HostRuntime, grammar: &Grammar, question: Question<'_>) -> anyhow::Result<bool> {
    let Question {
        left,
        right,
        relation,
        rows,
    } = question;
    println!(rt;
        "question: is every message of {left} a message of {right}? (relation {relation}, {rows} rows)"
    )?;
    let Some(a) = find_rule(rt, grammar, left)? else {
        return Ok(false);
    };
    let Some(b) = find_rule(rt, grammar, right)? else {
        return Ok(false);
    };
    let mut register = Register::new(rt.alloc(), grammar, &relation)?;
    let mut lent = Lent::new(rt.alloc(), rows.min(LENT))?;
    match register.question(a, b, lent.rows.as_mut_slice(), lent.items.as_mut_slice()) {
        Ok(answer) => tell_answer(rt, &register, question, (a, b), answer, &mut lent),
        Err(fault) => {
            tell_refusal(rt, "question", fault)?;
            Ok(false)
        }
    }
}

/// Asks whether every message of one rule is one of another, and tells the answer with its evidence.
pub fn ask(rt: &HostRuntime, path: &str, question: Question<'_>) -> anyhow::Result<bool> {
    let text = read_file(rt, path)?;
    with_grammar(rt, text.as_slice(), |grammar| {
        tell_counts(rt, path, grammar)?;
        ask_on(rt, grammar, question)
    })
}

/// The question of a line, `LEFT RIGHT [exact|heads] [ROWS]`.
fn question_of<'a>(line: &'a str) -> Option<Question<'a>> {
    let mut words = line.split(' ');
    Question::of_words(words.next(), words.next(), words.next(), words.next())
}

/// Asks the question of each line; empty lines and lines that begin with # are passed over.
fn ask_lines(rt: &HostRuntime, grammar: &Grammar, list: &str) -> anyhow::Result<bool> {
    for line in list.lines() {
        if line.is_empty() || line.starts_with('#') {
            continue;
        }
        let Some(question) = question_of(line) else {
            println!(rt; "this line is no question: {line}")?;
            return Ok(false);
        };
        println!(rt; "")?;
        ask_on(rt, grammar, question)?;
    }
    Ok(true)
}

/// Asks the questions of a file, a line each.
pub fn batch(rt: &HostRuntime, path: &str, questions: &str) -> anyhow::Result<bool> {
    let text = read_file(rt, path)?;
    let list = fs::read_to_string(rt, questions)?;
    with_grammar(rt, text.as_slice(), |grammar| {
        tell_counts(rt, path, grammar)?;
        ask_lines(rt, grammar, list.as_str())
    })
}

/// Judges a partner's sheet on a register from new.
fn judge_on(
    rt: &HostRuntime,
    grammar: &Grammar,
    relation: Named,
    text: &[u8],
) -> anyhow::Result<bool> {
    let mut register = Register::new(rt.alloc(), grammar, &relation)?;
    let mut lent = Lent::new(rt.alloc(), MOST)?;
    match register.sheet(text, lent.rows.as_mut_slice(), lent.items.as_mut_slice()) {
        Ok(sheet) => {
            let left = name_of(grammar.tables.rules(), sheet.left);
            let right = name_of(grammar.tables.rules(), sheet.right);
            match sheet.verdict {
                Verdict::Included => println!(rt;
                    "accepted: the sheet shows that every message of {left} is accepted by {right}."
                )?,
                Verdict::Excluded => {
                    println!(rt;
                        "accepted: the sheet shows a message of {left} that {right} does not accept:"
                    )?;
                    tell_message(rt, grammar, lent.items.as_slice(), sheet.records)?;
                }
            }
            Ok(true)
        }
        Err(fault) => {
            tell_refusal(rt, "sheet", fault)?;
            Ok(false)
        }
    }
}

/// Judges the sheet of a file.
pub fn judge(rt: &HostRuntime, path: &str, file: &str, relation: Named) -> anyhow::Result<bool> {
    let text = read_file(rt, path)?;
    let sheet = read_file(rt, file)?;
    with_grammar(rt, text.as_slice(), |grammar| {
        judge_on(rt, grammar, relation, sheet.as_slice())
    })
}

/// Tests a hedge text on a register from new.
fn member_on(
    rt: &HostRuntime,
    grammar: &Grammar,
    relation: Named,
    rule: &str,
    text: &[u8],
) -> anyhow::Result<bool> {
    let Some(number) = find_rule(rt, grammar, rule)? else {
        return Ok(false);
    };
    let mut register = Register::new(rt.alloc(), grammar, &relation)?;
    let mut lent = Lent::new(rt.alloc(), MOST)?;
    match register.member(
        number,
        text,
        lent.rows.as_mut_slice(),
        lent.items.as_mut_slice(),
    ) {
        Ok(membership) => {
            let records = membership.records;
            let answer = if membership.yes { "is" } else { "is not" };
            println!(rt; "the message of {records} items {answer} a message of {rule}:")?;
            tell_message(rt, grammar, lent.items.as_slice(), records)?;
            Ok(membership.yes)
        }
        Err(fault) => {
            tell_refusal(rt, "hedge", fault)?;
            Ok(false)
        }
    }
}

/// Tests whether a rule has the hedge of a file.
pub fn member(
    rt: &HostRuntime,
    path: &str,
    rule: &str,
    file: &str,
    relation: Named,
) -> anyhow::Result<bool> {
    let text = read_file(rt, path)?;
    let hedge = read_file(rt, file)?;
    with_grammar(rt, text.as_slice(), |grammar| {
        member_on(rt, grammar, relation, rule, hedge.as_slice())
    })
}
