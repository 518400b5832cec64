// Definitions and proofs about hedges, message expressions, derivatives and inequalities.
// There is no code here: `specs/` has the definitions that the contracts of the other crates
// cite, `proofs/` the theorems about them.
#![tactic(auto)]
