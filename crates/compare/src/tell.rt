//! Files, grammars and refusals, told in words.
use anyhow::anyhow;
use load::fault::{GrammarFault, LoadError};
use load::grammar::Grammar;
use load::load::load;
use std::fmt::Display;
use std::fs;
use text::fault::{Fault, Told};

/// A file's bytes, or a message that names it.
pub fn read_file(rt: &HostRuntime, path: &str) -> anyhow::Result<Vec<u8>> {
    match fs::read(rt, path) {
        Ok(bytes) => Ok(bytes),
        Err(error) => {
            eprintln!(rt; "cannot read {path}: {error}")?;
            Err(anyhow!("a file could not be read"))
        }
    }
}

/// Tells a refusal in words.
pub fn tell_refusal<F: Fault + Display>(
    rt: &HostRuntime,
    what: &str,
    fault: F,
) -> anyhow::Result<()> {
    let Told {
        cause,
        at_line,
        found_by,
    } = fault.told();
    println!(rt; "{what} refused: fault {cause} at line {at_line}, layer {found_by}: {fault}")?;
    Ok(())
}

/// `refused number=N line=N layer=L`
pub fn show_refusal<F: Fault>(rt: &HostRuntime, fault: F) -> anyhow::Result<()> {
    let Told {
        cause,
        at_line,
        found_by,
    } = fault.told();
    println!(rt; "refused number={cause} line={at_line} layer={found_by}")?;
    Ok(())
}

/// The grammar that a text spells, or its fault; or a message for want of memory.
pub fn load_text<'a>(
    rt: &HostRuntime,
    text: &'a [u8],
) -> anyhow::Result<Result<Grammar<'a>, GrammarFault>> {
    match load(rt.alloc(), text) {
        Ok(grammar) => Ok(Ok(grammar)),
        Err(LoadError::Fault(fault)) => Ok(Err(fault)),
        Err(LoadError::Memory) => Err(anyhow!("not enough memory to load the grammar")),
    }
}

/// How many names, nodes, rules, states and derivatives a grammar has.
#[derive(Clone, Copy)]
pub struct Counts {
    pub names: usize,
    pub nodes: usize,
    pub rules: usize,
    pub states: usize,
    pub derivatives: usize,
}

impl Counts {
    /// The counts of a grammar.
    pub fn of(grammar: &Grammar) -> Counts {
        let derivatives = grammar.machine.states.iter().fold(0usize, |sum, state| {
            sum.saturating_add(state.derivatives.len())
        });
        Counts {
            names: grammar.tables.names().len(),
            nodes: grammar.tables.nodes().len(),
            rules: grammar.tables.bodies().len(),
            states: grammar.machine.count(),
            derivatives,
        }
    }
}
