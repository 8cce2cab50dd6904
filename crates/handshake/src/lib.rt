// The handshake of every make, in code once: a make is a storage under it, and over every storage that has a delay it is an inserter.
#![tactic(auto)]

mod as_inserter;
pub mod faces;
pub mod limits;
mod questions;
mod rules;
pub mod shaken;
pub mod spread;
pub mod storage;
