// Builds the state machine of a grammar from its nodes and the bodies of its rules.
#![tactic(auto)]

pub mod build;
mod derive;
mod entering;
pub mod error;
mod grammar;
mod joining;
mod memo;
mod nullable;
mod places;
mod recursion;
