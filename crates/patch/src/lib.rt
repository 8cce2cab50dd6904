// The patch: an inserter of any make, seen with its channels in another order.
#![tactic(auto)]

mod checks;
pub mod patch;
pub mod table;
