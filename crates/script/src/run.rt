// A run of equal bytes in a text.
ghost use Rattle.std.specs.Prelude.{◌≡◌, ◌+◌, ◌≤◌, true, false, nat_lt, MatchOption};
ghost use Rattle.script.specs.Encoding.{data_cell, count_cell, goes_on};

use cell::cells::{Cell, Tag};

// the longest run that one count can stand for
const LONGEST: u8 = 128;

// A byte, and how often it stands one after the other: as often as one count can say.
#[derive(Clone, Copy)]
pub(crate) struct Run {
    byte: u8,
    times: u8,
    ghost stands: { 1 ≤ times },
    ghost countable: { times ≤ 128 },
}

impl Run {
    pub(crate) fn of_one(byte: u8) -> Run
        ensures byte { result.byte ≡ byte }
        ensures once { result.times ≡ 1 }
    {
        Run { byte, times: 1 }
    }

    // The run with the next byte in it, if that belongs to it.
    pub(crate) fn joined_by(self, next: u8) -> Option<Run>
        ensures { MatchOption result (goes_on next self.byte self.times ≡ false) (λ run. (goes_on next self.byte self.times ≡ true) × (run.byte ≡ self.byte) × (run.times ≡ self.times + 1)) }
    {
        if next == self.byte && self.times < LONGEST {
            Some(Run {
                byte: self.byte,
                times: self.times + 1,
            })
        } else {
            None
        }
    }

    // Whether the byte stands more than once, so that a count goes before it.
    pub(crate) fn repeats(self) -> bool
        ensures { result ≡ nat_lt 1 self.times }
    {
        self.times > 1
    }

    // The count that goes before the byte.
    pub(crate) fn count(self) -> Cell
        ensures { result ≡ count_cell self.times }
    {
        Cell {
            byte: self.times - 1,
            tag: Tag::Command,
        }
    }

    // The byte itself.
    pub(crate) fn byte(self) -> Cell
        ensures { result ≡ data_cell self.byte }
    {
        Cell {
            byte: self.byte,
            tag: Tag::Data,
        }
    }
}
