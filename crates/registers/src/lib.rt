// The port's registers, apart from any port: the bytes that they read as, what bytes written to them say, and the two tables of
// the configuration.
#![tactic(auto)]

pub mod config;
pub mod values;
pub mod written;
