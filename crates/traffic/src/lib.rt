// What is on its way through a port, and which way: the part of its record that decides what channels hold.
#![tactic(auto)]

pub mod clearing;
pub mod fetching;
pub mod moving;
pub mod record;
pub mod stage;
pub mod storing;
pub mod undone;
