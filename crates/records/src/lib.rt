//! Records: reading the texts of sheets and hedges into rows and items.
#![tactic(auto)]

pub mod fault;
pub mod line;
pub mod place;
pub mod read;
pub mod sheet;
