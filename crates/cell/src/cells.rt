// A cell is what the cable carries at a time: a byte and its tag.
ghost use Rattle.std.specs.Prelude.{◌≡◌};
ghost use Rattle.cell.specs.Cells.{kind_of, tag_at, level_of, sent_as, came_as};

use super::lines::{Answer, Shown};

// Whether a byte is data or a command. On the cable the tag is a line: high for data.
#[derive(Clone, Copy, PartialEq, Eq, Debug)]
pub enum Tag {
    Data,
    Command,
}

#[derive(Clone, Copy, PartialEq, Eq, Debug)]
pub struct Cell {
    pub byte: u8,
    pub tag: Tag,
}

// What a cell says to whoever reads it.
#[derive(Clone, Copy)]
pub enum Kind {
    Byte(u8),
    // the next byte stands for one more than this
    Count(u8),
    // the bytes that follow are for this channel, 0 to 127
    Address(u8),
}

// From a line of the cable, and to one.
impl From<bool> for Tag {
    ghost from_gives = { λ high tag. tag ≡ tag_at high };

    fn from(high: bool) -> Tag {
        if high { Tag::Data } else { Tag::Command }
    }
}

impl From<Tag> for bool {
    ghost from_gives = { λ tag high. high ≡ level_of tag };

    fn from(tag: Tag) -> bool {
        match tag {
            Tag::Data => true,
            Tag::Command => false,
        }
    }
}

impl From<Cell> for Kind {
    ghost from_gives = { λ cell kind. kind ≡ kind_of cell };

    fn from(cell: Cell) -> Kind {
        match cell.tag {
            Tag::Data => Kind::Byte(cell.byte),
            Tag::Command if cell.byte < 128 => Kind::Count(cell.byte),
            Tag::Command => Kind::Address(cell.byte - 128),
        }
    }
}

// The cell that goes out: the byte shown, tagged by HostAck. What comes back, below, has the other end's lines: one body for both
// would take a trait that says which line of each is the tag.
impl From<Shown> for Cell {
    ghost from_gives = { λ shown cell. cell ≡ sent_as shown };

    fn from(shown: Shown) -> Cell {
        Cell {
            byte: shown.byte,
            tag: Tag::from(shown.lines.ack),
        }
    }
}

// The cell that comes back: the byte answered, tagged by PeriphAck.
impl From<Answer> for Cell {
    ghost from_gives = { λ answer cell. cell ≡ came_as answer };

    fn from(answer: Answer) -> Cell {
        Cell {
            byte: answer.byte,
            tag: Tag::from(answer.lines.ack),
        }
    }
}
