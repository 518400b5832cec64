//! Which texts are grammars: a text is accepted exactly when it is the writing of lawful tables, and then those tables
//! are what is read.
#![tactic(auto)]

ghost use Rattle.std.specs.Prelude.{IfOk};
ghost use Rattle.tables.specs.Plain.{plain};
ghost use Rattle.tables.specs.Read.{read, answers};
ghost use Rattle.tables_law.specs.Lawful.{Lawful};
ghost use Rattle.tables_law.specs.Source.{Writes, Accepts};

use std::alloc::Global;
use tables::fault::ReadError;
use tables::read_tables;
use tables::table::Tables;

/// The tables that a grammar's text gives, or its first fault. Tables that are given are lawful and the text is their
/// writing; a text that writes lawful tables is never refused.
pub fn load_tables<'a>(heap: Global, text: &'a [u8]) -> Result<Tables<'a>, ReadError>
    ensures exact { answers result (read text.now) }
    ensures lawful { IfOk result (λ t. Lawful (plain t)) }
    ensures written { IfOk result (λ t. Writes text.now (plain t)) }
    ensures accepted { Accepts result text.now }
{
    read_tables(heap, text)
}
