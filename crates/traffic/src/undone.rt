// Why a byte that was written to the queue, or asked of it, was not stored or given.
ghost use Rattle.std.specs.Prelude.{◌≡◌, Some};
ghost use Rattle.traffic.specs.declared.undone.Undone.TheVariants.{Lost};
ghost use Rattle.traffic.specs.Outcomes.{reason_of, undone_number, outcome_number};

use queue::fifo::NoRoom;
use std::error::Error;
use std::fmt;

#[derive(Clone, Copy, PartialEq, Eq, Debug)]
pub enum Undone {
    // stored nowhere: the queue is full
    Lost,
    // nothing to give: the queue is empty
    Empty,
    // the queue works the other way
    Ignored,
}

impl Undone {
    // Why, in words.
    fn reason(self) -> &'static str
        ensures { result.now ≡ reason_of self }
    {
        match self {
            Undone::Lost => "the queue is full, and the byte is lost",
            Undone::Empty => "the queue is empty",
            Undone::Ignored => "the queue works the other way",
        }
    }
}

impl fmt::Display for Undone {
    ghost output = { λ undone. Some (reason_of undone) };

    fn fmt<W: fmt::Write>(&self, f: &mut fmt::Formatter<W>) -> fmt::Result {
        f.write_str(self.reason())
    }
}

impl Error for Undone {}

// What finds no room is lost.
impl From<NoRoom> for Undone {
    ghost from_gives = { λ _ undone. undone ≡ Lost };

    fn from(_refused: NoRoom) -> Self {
        Self::Lost
    }
}

// A match, and no numbers at the variants, so that the number of what is done, 0, has no variant to stand at.
impl From<Undone> for u8 {
    ghost from_gives = { λ undone number. number ≡ undone_number undone };

    fn from(undone: Undone) -> u8 {
        match undone {
            Undone::Lost => 1,
            Undone::Empty => 2,
            Undone::Ignored => 3,
        }
    }
}

// The number of an outcome: 0 where it is done, else why it is not.
pub fn outcome_number<T>(outcome: &Result<T, Undone>) -> u8
    ensures { result ≡ outcome_number outcome.now }
{
    match outcome {
        Ok(_) => 0,
        Err(undone) => u8::from(*undone),
    }
}
