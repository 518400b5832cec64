//! What the judgement of sheets means: an accepted sheet is true, and what a question gives as its
//! sheet is accepted. There are no functions here.
#![tactic(auto)]
