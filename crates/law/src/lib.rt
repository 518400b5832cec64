//! What the calls on a register mean, in the words of languages, hedges and settled pairs: definitions and proofs
//! without code.
#![tactic(auto)]
