// What nullability, derivatives and states mean: theorems that join them to the languages of
// expressions. There is no code here: `specs/` has definitions and statements, `proofs/` the proofs.
#![tactic(auto)]
