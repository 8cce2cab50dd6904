// The lines of the cable. A line is true where it is high.

// What the host drives.
#[derive(Clone, Copy)]
pub struct HostLines {
    // HostClk
    pub clk: bool,
    // HostAck
    pub ack: bool,
    // nReverseRequest
    pub nreverse: bool,
}

// What the host shows the far end: its lines and its byte. What is answered, below, is a type of its own and not the same one over
// other lines: the two never stand for one another, and each would be spelled by an alias.
#[derive(Clone, Copy)]
pub struct Shown {
    pub lines: HostLines,
    pub byte: u8,
}

// What the far end drives.
#[derive(Clone, Copy, PartialEq, Eq, Debug)]
pub struct PeriphLines {
    // PeriphClk
    pub clk: bool,
    // PeriphAck
    pub ack: bool,
    // nAckReverse
    pub nackreverse: bool,
    // nPeriphRequest
    pub nrequest: bool,
    // Xflag
    pub xflag: bool,
}

// What the far end answers: its lines and its byte.
#[derive(Clone, Copy, PartialEq, Eq, Debug)]
pub struct Answer {
    pub lines: PeriphLines,
    pub byte: u8,
}
