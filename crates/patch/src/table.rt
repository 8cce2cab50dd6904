// The patch table.
ghost use Rattle.std.specs.Prelude.{◌≡◌, ◌≤◌, length, Ok, Err, MatchResult};
ghost use Rattle.patch.specs.Tables.{table_answer, entry_of, place_of, channel_of};
ghost use Rattle.patch.specs.Patched.{told};

use super::checks::{any_alike, any_high};
use cell::cells::{Cell, Kind};
use refusal::Refusal;

// Eight different entries, each a channel from 0 to 7: entry k is what channel k is below.
#[derive(Clone, Copy)]
pub struct Table {
    entries: [u8; 8],
    ghost allowed: { table_answer entries ≡ Ok tt },
    ghost eight: { length entries ≡ 8 },
}

// The table of these entries, or why there is none.
impl TryFrom<[u8; 8]> for Table {
    type Error = Refusal;

    ghost try_from_gives = { λ entries result. MatchResult result (λ t. (table_answer entries ≡ Ok tt) × (t.entries ≡ entries)) (λ e. table_answer entries ≡ Err e) };

    fn try_from(entries: [u8; 8]) -> Result<Table, Refusal> {
        if any_high(&entries) {
            return Err(Refusal::EntryRange);
        }
        if any_alike(&entries) {
            return Err(Refusal::EntryTwice);
        }
        Ok(Table { entries })
    }
}

impl Table {
    // The channel that a channel is below.
    pub fn entry(&self, channel: u8) -> u8
        ensures { result ≡ entry_of self.now.entries channel }
    {
        if channel < 8 {
            self.entries[usize::from(channel)]
        } else {
            channel
        }
    }

    // The byte that is shown below for a cell: an address below 8 is told as its entry, and all else as it is.
    #[tactic(auto, using(crate::proofs::Ordering::entry_below))]
    pub fn told(&self, cell: Cell) -> u8
        ensures { result ≡ told self.now.entries cell }
    {
        match Kind::from(cell) {
            Kind::Address(channel) if channel < 8 => 128 + self.entry(channel),
            _ => cell.byte,
        }
    }

    // The channel that has this entry: what is below with that number is this one above.
    pub fn channel(&self, entry: u8) -> u8
        ensures { result ≡ channel_of self.now.entries entry }
    {
        if entry < 8 {
            place_of(&self.entries, entry) as u8
        } else {
            entry
        }
    }
}

// The place at which an entry stands first, and behind them all where it does not stand.
fn place_of(entries: &[u8], wanted: u8) -> usize
    ensures place { result ≡ place_of entries.now wanted }
    ensures within { result ≤ length entries.now }
{
    entries
        .iter()
        .position(|&entry| entry == wanted)
        .unwrap_or(entries.len())
}
