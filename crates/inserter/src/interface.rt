// The inserter interface.
ghost use Rattle.std.specs.Prelude.{◌≡◌, ℕ, length};
ghost use Rattle.inserter.specs.Meaning.{Meaning, held_on, free_on, at_place};
ghost use Rattle.inserter.specs.Rules.{Looked, LookedTwice, Dropped};

use cell::lines::{Answer, PeriphLines, Shown};

// An inserter of any make, by its meaning: whatever its contracts say of a meaning holds of every make.
pub trait Inserter {
    // The make's fixed delay: how many looks it lets pass before it acknowledges a cell.
    const DELAY: u8;

    ghost delay: { ℕ };

    ghost meaning: { Self → Meaning };

    // The delay again, for code that is generic in the make. No ghost member can stand for the constant itself: an impl for a
    // type with a lifetime, as every make is one, cannot give both.
    fn named_delay() -> u8
        ensures { result ≡ delay };

    // Shows the inserter what the host has on the cable; it does what the first rule that applies says, and answers.
    fn look(&mut self, shown: Shown) -> Answer
        ensures { Looked delay (meaning self.old) shown.lines shown.byte (meaning self.new) result };

    // The cable is dropped: lines, way and patience of a new inserter, and a mark in the reading.
    fn drop_cable(&mut self) -> PeriphLines
        ensures { Dropped delay (meaning self.old) (meaning self.new) result };

    // How many bytes a channel holds.
    fn length(&self, channel: u8) -> u32
        ensures { result ≡ length (held_on (meaning self.now) channel) };

    // The byte at a place of a channel, if one is there.
    fn byte_at(&self, channel: u8, place: u32) -> Option<u8>
        ensures { result ≡ at_place (held_on (meaning self.now) channel) place };

    // How many bytes more a channel has room for.
    fn free(&self, channel: u8) -> u32
        ensures { result ≡ free_on (meaning self.now) channel };
}

// Looks twice at any inserter, as a host does that waits for an answer to settle.
pub fn look_twice<I: Inserter>(inserter: &mut I, shown: Shown) -> (Answer, Answer)
    ensures { LookedTwice I.delay (I.meaning inserter.old) shown.lines shown.byte (I.meaning inserter.new) result.0 result.1 }
{
    let first = inserter.look(shown);
    let second = inserter.look(shown);
    (first, second)
}
