// Where the port stands in the handshake of a cell.
use cell::cells::Cell;

#[derive(Clone, Copy)]
pub enum Stage {
    Idle,
    // the cell is in the transmitter, and HostClk is low
    Low(Cell),
    // the far end has acknowledged the cell: the transmitter is empty, and HostClk is high again
    High(Cell),
    // a cell that comes back is asked for: HostAck is high
    Asked,
}
