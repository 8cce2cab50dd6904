// What an inserter shows on the cable, and the rules by which it answers a look.
use cell::cells::Cell;

// Which way an inserter works: it takes cells, or it gives its own back.
#[derive(Clone, Copy)]
pub enum Way {
    Forward,
    Reverse,
}

// The side of an inserter that faces the cable. Xflag is always high and nPeriphRequest follows the offers, so neither is kept.
#[derive(Clone, Copy)]
pub struct Front {
    // the cell on show, which is still the first on offer
    pub shown: Option<Cell>,
    pub way: Way,
    // PeriphClk
    pub clk: bool,
    // PeriphAck
    pub ack: bool,
    // nAckReverse
    pub nackreverse: bool,
    // looks that it still lets pass before it acknowledges
    pub patience: u8,
}

// What a look does: the first of these, in this order, whose condition holds.
#[derive(Clone, Copy)]
pub enum Rule {
    TurnForward,
    TurnReverse,
    Acknowledge,
    Take,
    Show,
    Release,
    Withdraw,
    // No condition holds: nothing changes. It is an answer to the same question, so a rule is no Option, which would put a `Some`
    // round each rule and one more match before each use.
    Rest,
}
