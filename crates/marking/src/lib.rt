// Definitions and proofs about marking refuted rows with a witness each. There is no code here:
// `specs/` says what marks and items hold, `proofs/` that one step keeps it and that marks which no
// further step changes are exactly those of the refuted rows.
#![tactic(auto)]
