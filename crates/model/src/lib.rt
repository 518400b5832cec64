// The plain data that every layer shares: names and their relation, nodes, sets of states,
// rows (inequalities) and items (hedges).
#![tactic(auto)]

pub mod machine;
pub mod names;
pub mod nodes;
pub mod relation;
pub mod rows;
pub mod sets;
pub mod verdict;
