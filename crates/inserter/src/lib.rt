// The interface behind which inserters of every make stand, and what it means.
#![tactic(auto)]

pub mod front;
pub mod interface;
