// Where a reading of cells stands.
ghost use Rattle.std.specs.Prelude.{◌≡◌};
ghost use Rattle.cell.specs.Reading.{start, repeats, moved};

use super::cells::{Cell, Kind};

#[derive(Clone, Copy)]
pub struct Cursor {
    pub channel: u8,
    pub count: Option<u8>,
}

impl Cursor {
    // Every reading begins here, on a channel whose bytes are kept nowhere.
    pub fn start() -> Cursor
        ensures { result ≡ start }
    {
        Cursor {
            channel: 127,
            count: None,
        }
    }

    // How often the next byte is added.
    pub fn repeats(self) -> u32
        ensures { result ≡ repeats self.count }
    {
        self.count.map_or(1, |n| u32::from(n) + 1)
    }

    // Where the reading stands after one cell more.
    pub fn after(self, cell: Cell) -> Cursor
        ensures { result ≡ moved self cell }
    {
        match Kind::from(cell) {
            Kind::Byte(_) => Cursor {
                channel: self.channel,
                count: None,
            },
            Kind::Count(n) => Cursor {
                channel: self.channel,
                count: Some(n),
            },
            Kind::Address(channel) => Cursor {
                channel,
                count: None,
            },
        }
    }
}
