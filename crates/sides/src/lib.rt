// What an inequality leads to: which labels cover which names, whether it is inconsistent or wide,
// and the sides of its either-ors.
#![tactic(auto)]

pub mod covers;
pub mod either;
pub mod entering;
pub mod nullable;
pub mod ors;
pub mod pairs;
pub mod setting;
pub mod wide;
