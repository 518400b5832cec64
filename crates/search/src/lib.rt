// The search that answers a question: all inequalities that are reachable from a root are met in
// lent rows, the refuted ones are marked with a witness each, and what is left is the answer.
#![tactic(auto)]

pub mod answer;
mod blank;
mod marks;
pub mod meeting;
mod met;
mod refuting;
