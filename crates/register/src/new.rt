//! Making a register.
ghost use Rattle.std.specs.Prelude.{◌≡◌, ℕ, IfOk};
ghost use Rattle.tables.specs.Plain.{plain};
ghost use Rattle.model.specs.Machine.{states_of};
ghost use Rattle.law.specs.Grounded.{under};
ghost use Rattle.ledger.specs.Settled.{at, unsettled};
ghost use Rattle.register.specs.Basis.{machine_of};

use crate::basis::Basis;
use crate::register::Register;
use ledger::table::Ledger;
use load::grammar::Grammar;
use model::relation::Relation;
use model::sets::StateSet;
use sides::covers::Covers;
use std::alloc::{AllocError, Global};

impl<'g, 't> Register<'g, 't> {
    /// An empty register on a grammar and a name relation: it covers names as the relation does, and
    /// every pair is unsettled.
    pub fn new<R: Relation>(
        heap: Global,
        grammar: &'g Grammar<'t>,
        relation: &R,
    ) -> Result<Register<'g, 't>, AllocError>
        ensures grammar { IfOk result (λ v. v.basis.grammar.now ≡ grammar.now) }
        ensures machine { IfOk result (λ v. machine_of v.basis ≡ under (plain grammar.now.tables) (states_of grammar.now.machine) (R.Relation.covered relation.now (plain grammar.now.tables).names)) }
        ensures fresh { IfOk result (λ v. (a b : ℕ) → at v.ledger a b ≡ unsettled) }
    {
        let covers = Covers::fill(heap, relation, grammar.tables.names())?;
        let ledger = Ledger::new(heap)?;
        let marks = vec![in heap; None; 512]?;
        let sets = vec![in heap; StateSet::empty(); 513]?;
        Ok(Register {
            basis: Basis { grammar, covers },
            ledger,
            marks,
            sets,
        })
    }
}
