//! The program's commands.
use crate::ask::{ask, batch, judge, member};
use crate::named::Named;
use crate::runs::replay;
use records::read::MOST;
use std::env;
use std::str::FromStr;

/// How the program is used.
const USAGE: &str = "usage: compare ask GRAMMAR LEFT RIGHT [exact|heads] [ROWS]
       compare batch GRAMMAR QUESTIONS
       compare sheet GRAMMAR FILE [exact|heads]
       compare member GRAMMAR RULE FILE [exact|heads]
       compare run GRAMMAR RELATION SCRIPT
       compare help";

/// A question by the spellings of its rules.
#[derive(Clone, Copy)]
pub struct Question<'a> {
    pub left: &'a str,
    pub right: &'a str,
    pub relation: Named,
    pub rows: usize,
}

/// What the program is to do.
#[derive(Clone, Copy)]
enum Command<'a> {
    Ask {
        grammar: &'a str,
        question: Question<'a>,
    },
    Batch {
        grammar: &'a str,
        questions: &'a str,
    },
    Sheet {
        grammar: &'a str,
        file: &'a str,
        relation: Named,
    },
    Member {
        grammar: &'a str,
        rule: &'a str,
        file: &'a str,
        relation: Named,
    },
    Run {
        grammar: &'a str,
        relation: Named,
        script: &'a str,
    },
    Help,
}

/// What a word spells; the other value where none is given.
fn parsed_or<T: FromStr + Drop>(word: Option<&str>, other: T) -> Option<T>
where
    T::Err: Drop,
{
    match word {
        Some(word) => word.parse().ok(),
        None => Some(other),
    }
}

impl<'a> Question<'a> {
    /// The question that words ask: `LEFT RIGHT [exact|heads] [ROWS]`.
    pub fn of_words(
        left: Option<&'a str>,
        right: Option<&'a str>,
        relation: Option<&str>,
        rows: Option<&str>,
    ) -> Option<Question<'a>> {
        Some(Question {
            left: left?,
            right: right?,
            relation: parsed_or(relation, Named::Exact)?,
            rows: parsed_or(rows, MOST)?,
        })
    }
}

/// The argument of this number, if it is given.
fn word(words: &[String], i: usize) -> Option<&str> {
    words.get(i).map(|word| word.as_str())
}

/// The command that the arguments give, if they give one.
fn read_command(words: &[String]) -> Option<Command<'_>> {
    let command = match word(words, 1)? {
        "ask" => Command::Ask {
            grammar: word(words, 2)?,
            question: Question::of_words(
                word(words, 3),
                word(words, 4),
                word(words, 5),
                word(words, 6),
            )?,
        },
        "batch" => Command::Batch {
            grammar: word(words, 2)?,
            questions: word(words, 3)?,
        },
        "sheet" => Command::Sheet {
            grammar: word(words, 2)?,
            file: word(words, 3)?,
            relation: parsed_or(word(words, 4), Named::Exact)?,
        },
        "member" => Command::Member {
            grammar: word(words, 2)?,
            rule: word(words, 3)?,
            file: word(words, 4)?,
            relation: parsed_or(word(words, 5), Named::Exact)?,
        },
        "run" => Command::Run {
            grammar: word(words, 2)?,
            relation: word(words, 3)?.parse().ok()?,
            script: word(words, 4)?,
        },
        "help" => Command::Help,
        _ => return None,
    };
    Some(command)
}

/// Obeys the command that the arguments give; false where it ends without success.
pub fn obey(rt: &HostRuntime) -> anyhow::Result<bool> {
    let words: Vec<String> = env::args(rt)?.collect(rt.alloc())?;
    let Some(command) = read_command(words.as_slice()) else {
        eprintln!(rt; "{USAGE}")?;
        return Ok(false);
    };
    match command {
        Command::Ask { grammar, question } => ask(rt, grammar, question),
        Command::Batch { grammar, questions } => batch(rt, grammar, questions),
        Command::Sheet {
            grammar,
            file,
            relation,
        } => judge(rt, grammar, file, relation),
        Command::Member {
            grammar,
            rule,
            file,
            relation,
        } => member(rt, grammar, rule, file, relation),
        Command::Run {
            grammar,
            relation,
            script,
        } => replay(rt, grammar, relation, script),
        Command::Help => {
            println!(rt; "{USAGE}")?;
            Ok(true)
        }
    }
}
