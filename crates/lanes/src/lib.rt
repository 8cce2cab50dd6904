// The lanes: an inserter that keeps its bytes in eight equal stretches of memory that it is lent.
#![tactic(auto)]

ghost use Rattle.std.specs.Prelude.{◌≡◌, ℕ, ◌/◌, ◌<◌, length, Ok};
ghost use Rattle.inserter.specs.Meaning.{New};
ghost use Rattle.inserter.specs.Rules.{Looked, Dropped};
ghost use Rattle.lanes.specs.Making.{lanes_answer};
ghost use Rattle.lanes.specs.LanesMeaning.{means, memory, memory_after};

mod lane_bytes;

use cell::cells::Cell;
use cell::lines::{Answer, PeriphLines, Shown};
use handshake::limits::may_offer;
use handshake::shaken::Handshake;
use inserter::interface::Inserter;
use lane_bytes::LANE_LIMIT;
pub use lane_bytes::LaneBytes;
use refusal::Refusal;

// Lanes are the handshake over such bytes. They are a type of their own, for their delay: a constant of the impl over any storage is
// known to no proof, and the one here is what looks and drops run by.
#[derive(Drop)]
pub struct Lanes<'a, 'c> {
    shaken: Handshake<'c, LaneBytes<'a>>,
}

impl Inserter for Lanes<'_, '_> {
    const DELAY: u8 = 0;

    ghost delay = { 0 };

    ghost meaning = { means };

    fn named_delay() -> u8
        ensures { result ≡ 0 }
    {
        Self::DELAY
    }

    // Of the memory, the look writes the bytes that it adds behind those of their lane, and nothing else.
    fn look(&mut self, shown: Shown) -> Answer
        ensures looked { Looked 0 (means self.old) shown.lines shown.byte (means self.new) result }
        ensures memory { memory self.new ≡ memory_after (memory self.old) (means self.old) shown.lines shown.byte }
    {
        self.shaken.look_with(Self::DELAY, shown)
    }

    fn drop_cable(&mut self) -> PeriphLines
        ensures dropped { Dropped 0 (means self.old) (means self.new) result }
        ensures memory { memory self.new ≡ memory self.old }
    {
        self.shaken.drop_with(Self::DELAY)
    }

    fn length(&self, channel: u8) -> u32 {
        self.shaken.length(channel)
    }

    fn byte_at(&self, channel: u8, place: u32) -> Option<u8> {
        self.shaken.byte_at(channel, place)
    }

    fn free(&self, channel: u8) -> u32 {
        self.shaken.free(channel)
    }
}

// Whether lanes can be made of this memory, offering these cells: no making before the yes.
pub fn may_use(bytes: &[u8], offers: &[Cell]) -> Result<(), Refusal>
    ensures { result ≡ lanes_answer (length bytes.now) (length offers.now) }
{
    let places = bytes.len() / 8;
    if bytes.len() % 8 == 0 && (1..=LANE_LIMIT).contains(&places) && may_offer(offers) {
        Ok(())
    } else {
        Err(Refusal::Memory)
    }
}

// New lanes over memory that `may_use` said yes to.
pub fn over<'a, 'c>(bytes: &'a mut [u8], offers: &'c [Cell]) -> Lanes<'a, 'c>
    requires { lanes_answer (length bytes.old) (length offers.now) ≡ Ok tt }
    ensures new { New 0 (means result) }
    ensures free { (k : ℕ) → k < 8 → (means result).free k ≡ length bytes.old / 8 }
    ensures offers { (means result).offers ≡ offers.now }
    ensures memory { memory result ≡ bytes.old }
{
    let store = LaneBytes {
        bytes,
        lens: [0; 8],
    };
    Lanes {
        shaken: Handshake::new(store, offers),
    }
}
