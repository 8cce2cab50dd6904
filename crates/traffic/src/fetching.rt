// The queue is read at 400.
ghost use Rattle.std.specs.Prelude.{◌≡◌, if◌then◌else◌, Some, None};
ghost use Rattle.queue.specs.Cells.{rest};
ghost use Rattle.traffic.specs.Fetching.{is_count, count_ahead, counted, uncounted, first_byte, with_waiting, given_out, got, fetched};

use super::record::Traffic;
use super::undone::Undone;
use cell::cells::{Cell, Kind};
use modes::mode::{Direction, Mode};
use queue::fifo::Queue;

// The count that a cell is, if it is one.
fn count_of(cell: Cell) -> Option<u8>
    ensures { result ≡ (if is_count cell then Some cell.byte else None) }
{
    match Kind::from(cell) {
        Kind::Count(n) => Some(n),
        _ => None,
    }
}

// The count at the head of a queue, if one is there.
fn count_ahead(queue: &Queue) -> Option<u8>
    ensures { result ≡ count_ahead queue.now }
{
    count_of(queue.first()?)
}

// Takes every count off the head. The last of them is the waiting count, or the one before where there is none.
fn take_counts(queue: &mut Queue, waiting: u8) -> u8
    ensures count { result ≡ counted waiting queue.old }
    ensures left { queue.new ≡ uncounted queue.old }
{
    let mut count = waiting;
    while let Some(n) = count_ahead(queue) {
        count = n;
        let _ = queue.take_first();
    }
    count
}

impl Traffic {
    // A byte of the queue, or why there is none.
    #[tactic(auto, using(crate::proofs::Taking::room_uncounted))]
    pub fn fetch(&mut self) -> Result<u8, Undone>
        ensures byte { result ≡ got self.old }
        ensures flow { self.new ≡ fetched self.old }
    {
        match (self.mode, self.direction) {
            (Mode::Ecp, Direction::In) => {
                self.waiting = take_counts(&mut self.queue, self.waiting);
                self.give_out()
            }
            (Mode::Test, _) => self.give_plain(),
            _ => Err(Undone::Ignored),
        }
    }

    // The first byte: it stays while the waiting count says so.
    fn give_out(&mut self) -> Result<u8, Undone>
        ensures byte { result ≡ first_byte self.old.queue }
        ensures flow { self.new ≡ given_out self.old }
    {
        let cell = self.queue.first().ok_or(Undone::Empty)?;
        if self.waiting > 0 {
            self.waiting -= 1;
        } else {
            let _ = self.queue.take_first();
        }
        Ok(cell.byte)
    }

    // The first cell leaves as it is.
    fn give_plain(&mut self) -> Result<u8, Undone>
        ensures byte { result ≡ first_byte self.old.queue }
        ensures flow { self.new ≡ with_waiting (rest self.old.queue) self.old.waiting self.old }
    {
        let cell = self.queue.take_first().ok_or(Undone::Empty)?;
        Ok(cell.byte)
    }
}
