//! A loaded grammar.
ghost use Rattle.tables.specs.Plain.{plain};
ghost use Rattle.model.specs.Machine.{states_of};
ghost use Rattle.load.specs.Loaded.{Loaded};

use model::machine::Machine;
use tables::table::Tables;

/// The tables of a grammar's text, and its states. Every grammar is lawful, and its states stand for
/// expressions.
#[derive(Drop)]
pub struct Grammar<'a> {
    pub tables: Tables<'a>,
    pub machine: Machine,
    ghost loaded: { ∥ Loaded (plain tables) (states_of machine) ∥₁ },
}
