//! A succession of calls on one register from new.
#![tactic(auto)]

pub mod call;
pub mod carry;
