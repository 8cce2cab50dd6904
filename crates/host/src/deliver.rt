// A caption, whole or not at all.
ghost use Rattle.std.specs.Prelude.{◌≡◌, length, nat_le};
ghost use Rattle.host.specs.Delivering.{Delivers};
ghost use Rattle.host.specs.declared.deliver.Undelivered.TheVariants.{NoMemory};

use super::play::{Played, play};
use inserter::interface::Inserter;
use script::encode::encode;
use script::lines::Caption;
use std::alloc::{AllocError, Global};
use std::error::Error;
use std::fmt;

// Why a caption was not sent. The inserter is then as it was.
#[derive(Clone, Copy, PartialEq, Eq, Debug)]
pub enum Undelivered {
    // its channel has fewer free places than the text has bytes
    NoRoom,
    // no memory was to be had for its cells
    NoMemory,
}

impl fmt::Display for Undelivered {
    fn fmt<W: fmt::Write>(&self, f: &mut fmt::Formatter<W>) -> fmt::Result {
        match self {
            Undelivered::NoRoom => write!(f, "the channel has no room for it, nothing was sent"),
            Undelivered::NoMemory => write!(f, "no memory for its cells, nothing was sent"),
        }
    }
}

impl Error for Undelivered {}

impl From<AllocError> for Undelivered {
    ghost from_gives = { λ error why. why ≡ NoMemory };

    fn from(_error: AllocError) -> Undelivered {
        Self::NoMemory
    }
}

// Whether a caption's channel has a place for each byte of its text.
fn has_room<I: Inserter>(inserter: &I, caption: Caption<'_>) -> bool
    ensures { result ≡ nat_le (length caption.entry.text.now) ((I.meaning inserter.now).free caption.entry.channel.number) }
{
    caption.text.len() <= inserter.free(u8::from(caption.channel)) as usize
}

// Gives a caption to an inserter of any make: where its channel has room, all of it arrives there and nothing anywhere else.
pub fn deliver<I: Inserter>(
    heap: Global,
    inserter: &mut I,
    caption: Caption<'_>,
) -> Result<Played, Undelivered>
    ensures { Delivers I.delay caption.entry.channel.number caption.entry.text.now (I.meaning inserter.old) result (I.meaning inserter.new) }
{
    if !has_room(inserter, caption) {
        return Err(Undelivered::NoRoom);
    }
    let cells = encode(heap, caption)?;
    Ok(play(inserter, &cells))
}
