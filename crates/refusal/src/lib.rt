// What is refused, each under its number.
#![tactic(auto)]

ghost use Rattle.std.specs.Prelude.{◌≡◌};
ghost use Rattle.refusal.specs.Numbers.{number_of};

use std::error::Error;
use std::fmt;

#[derive(Clone, Copy, PartialEq, Eq, Debug)]
pub enum Refusal {
    // no register has this address
    Address,
    // the register there has no such access in this mode
    Access,
    // the mode written to ECR is none of those that the port has
    Mode,
    // a bit is written to DCR that it does not keep
    ControlBits,
    // ECR or DCR is written while a cell is on its way
    Stage,
    // a DMA cycle finds no request for it
    Request,
    // a turn is asked for a channel above 7
    Channel,
    // the turn asked for is out
    TurnTaken,
    // the channel's turn is not out at this port
    NoTurn,
    // a send repeats its byte 0 times, or more than 128 times
    Repeats,
    // a send while the port does not send
    NotSending,
    // the cells of a send do not fit into the queue
    NoRoom,
    // the memory handed over for a make, or the offers, do not keep the limits
    Memory,
    // an entry of a patch table is no channel from 0 to 7
    EntryRange,
    // two entries of a patch table are alike
    EntryTwice,
}

// The number under which it is refused. A match, and no numbers at the variants: there two that are alike would be no program, and
// not a false promise.
impl From<Refusal> for u8 {
    ghost from_gives = { λ refusal number. number ≡ number_of refusal };

    fn from(refusal: Refusal) -> u8 {
        match refusal {
            Refusal::Address => 1,
            Refusal::Access => 2,
            Refusal::Mode => 3,
            Refusal::ControlBits => 4,
            Refusal::Stage => 5,
            Refusal::Request => 6,
            Refusal::Channel => 7,
            Refusal::TurnTaken => 8,
            Refusal::NoTurn => 9,
            Refusal::Repeats => 10,
            Refusal::NotSending => 11,
            Refusal::NoRoom => 12,
            Refusal::Memory => 13,
            Refusal::EntryRange => 14,
            Refusal::EntryTwice => 15,
        }
    }
}

impl Refusal {
    // What a refusal means, in words.
    fn meaning(self) -> &'static str {
        match self {
            Refusal::Address => "no register has this address",
            Refusal::Access => "this register cannot be accessed so in this mode",
            Refusal::Mode => "the port has no such mode: it has 000, 001, 011, 110 and 111",
            Refusal::ControlBits => "bits 0, 1, 3, 6 and 7 of DCR have to be written as 0",
            Refusal::Stage => "ECR and DCR are written only while no cell is on its way",
            Refusal::Request => "no request for this DMA cycle stands",
            Refusal::Channel => "turns are for channels 0 to 7",
            Refusal::TurnTaken => "the channel's turn is out",
            Refusal::NoTurn => "the channel's turn is not out at this port",
            Refusal::Repeats => "a send repeats its byte 1 to 128 times",
            Refusal::NotSending => "sends want mode 011 with direction 0",
            Refusal::NoRoom => "the queue has too few free places for the send",
            Refusal::Memory => {
                "each lane or pool has 1 to 65,535 places, all lanes are equal, and at most 65,535 cells are on offer"
            }
            Refusal::EntryRange => {
                "an entry of the patch table is 8 or more, and each is a channel from 0 to 7"
            }
            Refusal::EntryTwice => {
                "two entries of the patch table are alike, so that two channels would run into one"
            }
        }
    }
}

// The number, and what it means.
impl fmt::Display for Refusal {
    fn fmt<W: fmt::Write>(&self, f: &mut fmt::Formatter<W>) -> fmt::Result {
        let number = u8::from(*self);
        let meaning = self.meaning();
        write!(f, "refusal {number}: {meaning}")
    }
}

impl Error for Refusal {}
