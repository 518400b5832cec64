//! Writing the text of a sheet.
#![tactic(auto)]

pub mod check;
mod page;
pub mod put;
pub mod record;
pub mod write;
