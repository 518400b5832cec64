//! Loads a grammar from its text: its tables and its states.
#![tactic(auto)]

pub mod fault;
pub mod grammar;
pub mod load;
