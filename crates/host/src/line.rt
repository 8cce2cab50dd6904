// A line of the script, played to an inserter.
ghost use Rattle.std.specs.Prelude.{◌≡◌};
ghost use Rattle.host.specs.Lines.{Lined};
ghost use Rattle.host.specs.declared.line.NotSent.TheVariants.{Bad, Undelivered};

use super::deliver::{Undelivered, deliver};
use super::play::Played;
use inserter::interface::Inserter;
use script::lines::{BadLine, caption_of};
use std::alloc::Global;
use std::error::Error;
use std::fmt;

// Why nothing was sent for a line. The inserter is then as it was.
#[derive(Clone, Copy, PartialEq, Eq, Debug)]
pub enum NotSent {
    // the line is empty, and has nothing to send
    Empty,
    // the line is no caption
    Bad(BadLine),
    // it is one that was not delivered
    Undelivered(Undelivered),
}

impl fmt::Display for NotSent {
    fn fmt<W: fmt::Write>(&self, f: &mut fmt::Formatter<W>) -> fmt::Result {
        match self {
            NotSent::Empty => f.write_str("the line is empty"),
            NotSent::Bad(why) => write!(f, "{why}"),
            NotSent::Undelivered(why) => write!(f, "{why}"),
        }
    }
}

impl Error for NotSent {}

impl From<BadLine> for NotSent {
    ghost from_gives = { λ bad why. why ≡ Bad bad };

    fn from(bad: BadLine) -> NotSent {
        Self::Bad(bad)
    }
}

impl From<Undelivered> for NotSent {
    ghost from_gives = { λ undelivered why. why ≡ Undelivered undelivered };

    fn from(undelivered: Undelivered) -> NotSent {
        Self::Undelivered(undelivered)
    }
}

// What became of a line. There is one for each line of a script, so that a line with nothing to send is one more reason, and no
// Option: each type within another has a tag of its own, and Played makes one as long as sixteen bytes.
pub type Outcome = Result<Played, NotSent>;

// Plays one line to an inserter of any make, which stays as it was unless a caption is sent.
pub fn play_line<I: Inserter>(heap: Global, inserter: &mut I, line: &[u8]) -> Outcome
    ensures { Lined I.delay line.now (I.meaning inserter.old) result (I.meaning inserter.new) }
{
    if line.is_empty() {
        return Err(NotSent::Empty);
    }
    Ok(deliver(heap, inserter, caption_of(line)?)?)
}
