// A cell is stored by a write or a DMA cycle.
ghost use Rattle.std.specs.Prelude.{◌≡◌};
ghost use Rattle.cell.specs.Cells.{kind_of};
ghost use Rattle.traffic.specs.Storing.{store_outcome, stored, known_by};

use super::record::Traffic;
use super::undone::Undone;
use cell::cells::{Cell, Kind};

// The known address once a cell was stored.
fn known_after(cell: Cell, known: Option<u8>) -> Option<u8>
    ensures { result ≡ known_by (kind_of cell) known }
{
    match Kind::from(cell) {
        Kind::Byte(_) => known,
        Kind::Count(_) => None,
        Kind::Address(channel) => Some(channel),
    }
}

impl Traffic {
    // Stores a cell, or says why not.
    pub fn store(&mut self, cell: Cell) -> Result<(), Undone>
        ensures outcome { result ≡ store_outcome self.old }
        ensures flow { self.new ≡ stored cell self.old }
    {
        if self.mode.receives(self.direction) {
            return Err(Undone::Ignored);
        }
        self.queue.push(cell)?;
        self.known = known_after(cell, self.known);
        Ok(())
    }
}
