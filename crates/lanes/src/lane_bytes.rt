// Eight equal stretches of one lent slice, a lane for each channel.
ghost use Rattle.std.specs.Prelude.{ℕ, ◌/◌, ◌<◌, ◌≤◌, length, slice_index};
ghost use Rattle.lanes.specs.Lanes.{lane_limit};

use handshake::spread::spread;
use handshake::storage::{Delayed, Storage};

// The most places that a lane may have.
pub(crate) const LANE_LIMIT: usize = 65_535;

#[derive(Drop)]
pub struct LaneBytes<'a> {
    pub(crate) bytes: &'a mut [u8],
    // How many places of each lane are in use. They stand beside the bytes, since all memory is lent and there is no heap.
    pub(crate) lens: [u32; 8],
    ghost short: { length bytes.now / 8 ≤ lane_limit },
    ghost within: { (k : ℕ) → k < 8 → slice_index lens k ≤ length bytes.now / 8 },
}

impl LaneBytes<'_> {
    ghost use Rattle.std.specs.Prelude.{◌≡◌};
    ghost use Rattle.handshake.specs.Storage.{Grown};
    ghost use Rattle.lanes.specs.Lanes.{stretch, used, next_place, laned};
    ghost use Rattle.lanes.specs.Kept.{held_by, free_in};

    // How many places each lane has.
    fn stretch(&self) -> u32
        ensures { result ≡ stretch self.now.bytes.now }
    {
        (self.bytes.len() / 8) as u32
    }

    // How many places of a lane are in use.
    fn used(&self, channel: u8) -> u32
        ensures { result ≡ used (stretch self.now.bytes.now) self.now.lens channel }
    {
        self.lens.get(usize::from(channel)).copied().unwrap_or(0)
    }

    // What a lane holds.
    fn lane(&self, channel: u8) -> &[u8]
        ensures { result.now ≡ held_by self.now channel }
    {
        if channel < 8 {
            let start = usize::from(channel) * self.stretch() as usize;
            &self.bytes[start..start + self.used(channel) as usize]
        } else {
            &[]
        }
    }

    // The place of a lane that comes next.
    fn next_place(&self, channel: u8) -> usize
        ensures { result ≡ next_place self.now.bytes.now self.now.lens channel }
    {
        usize::from(channel) * self.stretch() as usize + self.used(channel) as usize
    }

    // The byte n times more on a lane that has the places.
    #[tactic(auto, using(crate::proofs::Laning::memory))]
    fn append(&mut self, channel: u8, n: u32, byte: u8)
        requires { (channel < 8) × (n ≤ free_in self.old channel) }
        ensures grown { Grown channel n byte (held_by self.old) (free_in self.old) (held_by self.new) (free_in self.new) }
        ensures memory { self.new.bytes.now ≡ laned self.old.bytes.now (length (held_by self.old channel)) channel n byte }
    {
        let at = self.next_place(channel);
        let have = self.used(channel);
        spread(self.bytes, at, n as usize, byte);
        self.lens[channel as usize] = have + n;
    }
}

impl Storage for LaneBytes<'_> {
    ghost use Rattle.std.specs.Prelude.{◌≡◌, List};
    ghost use Rattle.lanes.specs.Lanes.{laned};
    ghost use Rattle.lanes.specs.Kept.{held_by, free_in};

    ghost held = { held_by };

    ghost free = { free_in };

    ghost Memory = { List ℕ };

    ghost memory = { λ s. s.bytes.now };

    ghost rewritten = { laned };

    fn length_on(&self, channel: u8) -> u32 {
        self.lane(channel).len() as u32
    }

    fn byte_on(&self, channel: u8, place: u32) -> Option<u8> {
        self.lane(channel).get(place as usize).copied()
    }

    fn free_on(&self, channel: u8) -> u32 {
        if channel < 8 {
            self.stretch() - self.used(channel)
        } else {
            0
        }
    }

    fn put(&mut self, channel: u8, n: u32, byte: u8) {
        let places = self.free_on(channel);
        if channel < 8 {
            self.append(channel, n.min(places), byte);
        }
    }
}

// The delay of the handshake over such bytes, where it is an inserter by itself.
impl Delayed for LaneBytes<'_> {
    ghost use Rattle.std.specs.Prelude.{◌≡◌};

    const DELAY: u8 = 0;

    ghost delay = { 0 };

    fn named_delay() -> u8
        ensures { result ≡ 0 }
    {
        Self::DELAY
    }
}
