// The cable's language: cells, where a reading of them stands, channels, and the cable's lines.
#![tactic(auto)]

pub mod cells;
pub mod channel;
pub mod cursor;
pub mod lines;
pub mod rules;
