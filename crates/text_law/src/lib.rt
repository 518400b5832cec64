//! How texts, lines and numbers are written: what is read is what was written, and the other way round.
#![tactic(auto)]
