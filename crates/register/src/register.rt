//! What a register holds.
ghost use Rattle.std.specs.Prelude.{◌≡◌, vec_len};
ghost use Rattle.tables.specs.Plain.{plain};
ghost use Rattle.sides.specs.View.{covers_of};
ghost use Rattle.ledger.specs.Settled.{at};
ghost use Rattle.load.specs.Loaded.{bodies_of, rules_of};
ghost use Rattle.law.specs.Claims.{AllTrue};

use crate::basis::Basis;
use ledger::table::Ledger;
use model::sets::StateSet;

/// What it stands on, the settled pairs, and working memory for questions and membership tests, so
/// that no call needs more. All that is settled is true.
#[derive(Drop)]
pub struct Register<'g, 't> {
    pub basis: Basis<'g, 't>,
    pub ledger: Ledger,
    pub marks: Vec<Option<usize>>,
    pub sets: Vec<StateSet>,
    ghost sized: { (vec_len marks ≡ 512) × (vec_len sets ≡ 513) },
    ghost truth: { ∥ AllTrue (bodies_of (plain basis.grammar.now.tables)) (rules_of (plain basis.grammar.now.tables)) (covers_of basis.covers) (at ledger) ∥₁ },
}
