//! The tables of a grammar, read from its text.
#![tactic(auto)]

mod checks;
mod draft;
pub mod fault;
mod judge;
mod read;
mod shape;
pub mod table;
mod words;

pub use read::read_tables;
