//! Line text: lines that end in LF, each a key, `=` and fields with commas between them.
//! The reader stands over the caller's text and copies none of it.
#![tactic(auto)]

pub mod fault;
pub mod field;
pub mod form;
pub mod line;
pub mod reader;
