// The modes of the port, and which register an address means in each.
#![tactic(auto)]

pub mod decode;
pub mod mode;
