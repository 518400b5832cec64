// Which name covers which, asked of a relation once and kept in a table.
ghost use Rattle.std.specs.Prelude.{◌≡◌, map, length, IfOk};
ghost use Rattle.std.specs.List.{range_with_len};
ghost use Rattle.sides.specs.View.{table_of, names_of, covers_of};

use model::names::Name;
use model::relation::Relation;
use std::alloc::{AllocError, Global};

// For each name h in order, whether it covers each name t.
#[derive(Drop)]
pub struct Covers {
    table: Vec<Vec<bool>>,
}

// Whether h covers each name in order.
fn covered_by<R: Relation>(
    heap: Global,
    relation: &R,
    names: &[Name],
    h: usize,
) -> Result<Vec<bool>, AllocError>
    ensures { IfOk result (λ v. v.items ≡ map (R.Relation.covered relation.now names.now h) (range_with_len 0 (length names.now))) }
{
    (0..names.len())
        .map(|t| relation.covers(names, h, t))
        .collect(heap)
}

impl Covers {
    // The table of a relation over the names of a grammar. (A `for`: after `try_collect` the check leaves
    // the result open.)
    pub fn fill<R: Relation>(
        heap: Global,
        relation: &R,
        names: &[Name],
    ) -> Result<Covers, AllocError>
        ensures { IfOk result (λ c. table_of c ≡ map (λ h. map (R.Relation.covered relation.now names.now h) (range_with_len 0 (length names.now))) (range_with_len 0 (length names.now))) }
    {
        let mut table = Vec::new(heap);
        for h in 0..names.len() {
            table.push(covered_by(heap, relation, names, h)?)?;
        }
        Ok(Covers { table })
    }

    // The number of names.
    pub fn names(&self) -> usize
        ensures { result ≡ names_of self.now }
    {
        self.table.len()
    }

    // Whether h covers t; a number that is no name covers none and is not covered.
    pub fn get(&self, h: usize, t: usize) -> bool
        ensures { result ≡ covers_of self.now h t }
    {
        self.table
            .get(h)
            .and_then(|row| row.get(t))
            .is_some_and(|covered| *covered)
    }
}
