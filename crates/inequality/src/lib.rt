// What holds of inequalities between states: the subset rule, closed tables, refutation with a
// witness, marking, and the breadth-first meeting of the reachable inequalities. There is no code
// here: `specs/` has the definitions and statements, `proofs/` their proofs.
#![tactic(auto)]
