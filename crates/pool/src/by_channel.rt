// The records of one channel, in the order of arrival.
ghost use Rattle.std.specs.Prelude.{◌≡◌, ◌≤◌, length};
ghost use Rattle.inserter.specs.Meaning.{at_place};
ghost use Rattle.pool.specs.Pool.{bytes_of};

use super::record::Record;

// How many of the records are on the channel. By a loop, as below: the library's `filter` asks for one item after the other, which
// takes a pool, where every question walks the records, up to twice as long.
pub(crate) fn counted(records: &[Record], channel: u8) -> usize
    ensures number { result ≡ length (bytes_of channel records.now) }
    ensures at_most { result ≤ length records.now }
{
    let mut count = 0;
    for here in records {
        if here.is_on(channel) {
            count += 1;
        }
    }
    count
}

// The byte at a place of the channel, among the records.
pub(crate) fn found(records: &[Record], channel: u8, place: usize) -> Option<u8>
    ensures { result ≡ at_place (bytes_of channel records.now) place }
{
    let mut before = place;
    for here in records {
        if here.is_on(channel) {
            if before == 0 {
                return Some(here.byte);
            }
            before -= 1;
        }
    }
    None
}
