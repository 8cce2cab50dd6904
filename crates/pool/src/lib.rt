// The pool: an inserter that keeps its bytes as records of channel and byte, in memory that it is lent and that all channels share.
#![tactic(auto)]

ghost use Rattle.std.specs.Prelude.{◌≡◌, ℕ, ◌<◌, length, Ok};
ghost use Rattle.inserter.specs.Meaning.{New};
ghost use Rattle.inserter.specs.Rules.{Looked, Dropped};
ghost use Rattle.pool.specs.Making.{pool_answer};
ghost use Rattle.pool.specs.PoolMeaning.{means, memory, memory_after};

mod by_channel;
pub mod record;
mod records;

use cell::cells::Cell;
use cell::lines::{Answer, PeriphLines, Shown};
use handshake::limits::may_offer;
use handshake::shaken::Handshake;
use inserter::interface::Inserter;
use record::Record;
use records::POOL_LIMIT;
pub use records::PoolRecords;
use refusal::Refusal;

// A pool is the handshake over such records. It is a type of its own, for its delay: a constant of the impl over any storage is known
// to no proof, and the one here is what looks and drops run by.
#[derive(Drop)]
pub struct Pool<'a, 'c> {
    shaken: Handshake<'c, PoolRecords<'a>>,
}

impl Inserter for Pool<'_, '_> {
    const DELAY: u8 = 2;

    ghost delay = { 2 };

    ghost meaning = { means };

    fn named_delay() -> u8
        ensures { result ≡ 2 }
    {
        Self::DELAY
    }

    // Of the memory, the look writes the bytes that it adds behind all that were in use, and nothing else.
    fn look(&mut self, shown: Shown) -> Answer
        ensures looked { Looked 2 (means self.old) shown.lines shown.byte (means self.new) result }
        ensures memory { memory self.new ≡ memory_after (memory self.old) (means self.old) shown.lines shown.byte }
    {
        self.shaken.look_with(Self::DELAY, shown)
    }

    fn drop_cable(&mut self) -> PeriphLines
        ensures dropped { Dropped 2 (means self.old) (means self.new) result }
        ensures memory { memory self.new ≡ memory self.old }
    {
        self.shaken.drop_with(Self::DELAY)
    }

    fn length(&self, channel: u8) -> u32 {
        self.shaken.length(channel)
    }

    fn byte_at(&self, channel: u8, place: u32) -> Option<u8> {
        self.shaken.byte_at(channel, place)
    }

    fn free(&self, channel: u8) -> u32 {
        self.shaken.free(channel)
    }
}

// Whether a pool can be made of these records, offering these cells: no making before the yes.
pub fn may_use(records: &[Record], offers: &[Cell]) -> Result<(), Refusal>
    ensures { result ≡ pool_answer (length records.now) (length offers.now) }
{
    if (1..=POOL_LIMIT).contains(&records.len()) && may_offer(offers) {
        Ok(())
    } else {
        Err(Refusal::Memory)
    }
}

// A new pool over records that `may_use` said yes to.
pub fn over<'a, 'c>(records: &'a mut [Record], offers: &'c [Cell]) -> Pool<'a, 'c>
    requires { pool_answer (length records.old) (length offers.now) ≡ Ok tt }
    ensures new { New 2 (means result) }
    ensures free { (k : ℕ) → k < 8 → (means result).free k ≡ length records.old }
    ensures offers { (means result).offers ≡ offers.now }
    ensures memory { memory result ≡ record { records = records.old; used = 0 } }
{
    let store = PoolRecords { records, used: 0 };
    Pool {
        shaken: Handshake::new(store, offers),
    }
}
