// The port's queue: sixteen cells, first in first out. The transmitter is one cell more, and never counts as queue.
#![tactic(auto)]

pub mod fifo;
mod ring;
