// The script that captions are read from: its lines, and a caption as cells.
#![tactic(auto)]

pub mod digits;
pub mod encode;
pub mod lines;
mod run;
