// What inequalities are about: the states of a grammar, and which name covers which.
use crate::covers::Covers;
use model::machine::Machine;

// The states of a grammar with the table of covered names. Both are lent, and its methods stand
// beside what they decide: whether a row is inconsistent or wide, its pairs, its sides.
#[derive(Clone, Copy)]
pub struct Setting<'a> {
    pub machine: &'a Machine,
    pub covers: &'a Covers,
}
