//! A register on one grammar and one name relation: questions, sheets, membership tests, writing,
//! look-ups and clearings.
#![tactic(auto)]

pub mod basis;
pub mod membership;
mod new;
mod pairs;
mod question;
pub mod register;
mod sheet;
