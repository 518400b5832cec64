//! Loading a grammar from its text.
ghost use Rattle.std.specs.Prelude.{◌≡◌, slice_index};
ghost use Rattle.load.specs.Errors.{of_build};
ghost use Rattle.load.specs.Loads.{Loads};

use crate::fault::{GrammarFault, LoadError};
use crate::grammar::Grammar;
use states::build::build;
use states::error::BuildError;
use std::alloc::Global;
use tables_law::load_tables;

/// The line number k; 0 where there is none, which is the line of a fault that stands at no line.
fn line_at(lines: &[usize], k: usize) -> usize
    ensures { result ≡ slice_index lines.now k }
{
    lines.get(k).copied().unwrap_or(0)
}

/// What an error of building states is to a load; rule k stands at the line number k of `lines`.
fn build_error(error: BuildError, lines: &[usize]) -> LoadError
    ensures { result ≡ of_build error lines.now }
{
    match error {
        BuildError::Recursion(k) => {
            let line = line_at(lines, k);
            LoadError::Fault(GrammarFault::Recursion { line })
        }
        BuildError::TooLarge => LoadError::Fault(GrammarFault::Size),
        BuildError::NoMemory => LoadError::Memory,
    }
}

/// Loads the grammar that a text spells.
pub fn load<'a>(heap: Global, text: &'a [u8]) -> Result<Grammar<'a>, LoadError>
    ensures { Loads text.now result }
{
    let tables = load_tables(heap, text)?;
    let lines = tables.rule_lines();
    let machine = build(heap, tables.nodes(), tables.bodies()).map_err(
        |error: BuildError| -> LoadError
            ensures { result ≡ of_build error lines.entry.now }
        { build_error(error, lines) },
    )?;
    Ok(Grammar { tables, machine })
}
