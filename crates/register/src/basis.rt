//! What a register stands on.
ghost use Rattle.tables.specs.Plain.{plain};
ghost use Rattle.sides.specs.View.{view};
ghost use Rattle.law.specs.Grounded.{Grounded};

mod checks;

use load::grammar::Grammar;
use sides::covers::Covers;

/// A grammar, and which of its names covers which. The relation is lawful over the grammar's names.
#[derive(Drop)]
pub struct Basis<'g, 't> {
    pub grammar: &'g Grammar<'t>,
    pub covers: Covers,
    ghost grounded: { ∥ Grounded (plain grammar.now.tables) (view grammar.now.machine covers) ∥₁ },
}
