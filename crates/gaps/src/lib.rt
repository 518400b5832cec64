//! Gaps of a sheet's rows: either-ors neither of whose sides is shown.
#![tactic(auto)]

pub mod chains;
pub mod gap;
pub mod grounds;
pub mod place;
pub mod shown;
