// One pool of records in a lent slice, in the order of arrival, shared by all channels.
ghost use Rattle.std.specs.Prelude.{◌≤◌, length};
ghost use Rattle.pool.specs.Pool.{pool_limit};

use super::by_channel::{counted, found};
use super::record::Record;
use handshake::spread::spread;
use handshake::storage::{Delayed, Storage};

// The most records that a pool may have.
pub(crate) const POOL_LIMIT: usize = 65_535;

// The memory is lent and fixed, so it is a slice with a count beside it, and no Vec.
#[derive(Drop)]
pub struct PoolRecords<'a> {
    pub(crate) records: &'a mut [Record],
    // how many of them are in use, from the first on
    pub(crate) used: usize,
    ghost in_range: { (used ≤ length records.now) × (length records.now ≤ pool_limit) },
}

impl PoolRecords<'_> {
    ghost use Rattle.std.specs.Prelude.{◌≡◌, take};
    ghost use Rattle.pool.specs.Pool.{in_use, left, stored_after};
    ghost use Rattle.pool.specs.Kept.{held_by, free_in, lent_to};

    fn in_use(&self) -> &[Record]
        ensures { result.now ≡ take (in_use self.now.records.now self.now.used) self.now.records.now }
    {
        &self.records[..self.used]
    }

    // How many places are free, which all channels share.
    fn left(&self) -> usize
        ensures { result ≡ left self.now.records.now self.now.used }
    {
        self.records.len() - self.used
    }

    // The byte n times more on a channel, where so many places are free.
    #[tactic(auto, using(crate::proofs::Pooling::appended))]
    fn append(&mut self, channel: u8, n: usize, byte: u8)
        requires { n ≤ free_in self.old channel }
        ensures { lent_to self.new ≡ stored_after (lent_to self.old) (length (held_by self.old channel)) channel n byte }
    {
        spread(self.records, self.used, n, Record { channel, byte });
        self.used += n;
    }
}

impl Storage for PoolRecords<'_> {
    ghost use Rattle.std.specs.Prelude.{◌≡◌};
    ghost use Rattle.pool.specs.Pool.{Stored, stored_after};
    ghost use Rattle.pool.specs.Kept.{held_by, free_in, lent_to};

    ghost held = { held_by };

    ghost free = { free_in };

    ghost Memory = { Stored };

    ghost memory = { lent_to };

    ghost rewritten = { stored_after };

    fn length_on(&self, channel: u8) -> u32 {
        counted(self.in_use(), channel) as u32
    }

    fn byte_on(&self, channel: u8, place: u32) -> Option<u8> {
        found(self.in_use(), channel, place as usize)
    }

    fn free_on(&self, _channel: u8) -> u32 {
        self.left() as u32
    }

    fn put(&mut self, channel: u8, n: u32, byte: u8) {
        self.append(channel, (n as usize).min(self.left()), byte);
    }
}

// The delay of the handshake over such records, where it is an inserter by itself.
impl Delayed for PoolRecords<'_> {
    ghost use Rattle.std.specs.Prelude.{◌≡◌};

    const DELAY: u8 = 2;

    ghost delay = { 2 };

    fn named_delay() -> u8
        ensures { result ≡ 2 }
    {
        Self::DELAY
    }
}
