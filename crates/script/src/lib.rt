//! Scripts: one call a line, for replaying a succession of calls on one register.
#![tactic(auto)]

pub mod call;
pub mod line;
