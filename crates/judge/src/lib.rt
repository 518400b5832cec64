//! Judges what a sheet shows, once its text has been read.
#![tactic(auto)]

pub mod claim;
pub mod fault;
pub mod rows;
