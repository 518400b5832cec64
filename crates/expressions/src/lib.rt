// Expressions by numbers, nullability by numbers, and the test of lawful recursion: definitions and
// proofs alone.
#![tactic(auto)]
