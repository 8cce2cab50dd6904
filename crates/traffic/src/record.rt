// The record of what is on its way, and what it is asked.
ghost use Rattle.std.specs.Prelude.{◌≡◌, ◌≤◌, true, length};
ghost use Rattle.queue.specs.Depth.{depth};
ghost use Rattle.queue.specs.Cells.{first};
ghost use Rattle.traffic.specs.Stages.{asks_rightly, asks_with_room};

use super::stage::Stage;
use cell::cells::Cell;
use cell::lines::Answer;
use modes::mode::{Direction, Mode};
use queue::fifo::Queue;
use std::marker::Model;

#[derive(Drop)]
pub struct Traffic {
    pub mode: Mode,
    pub direction: Direction,
    // bit 2 of DCR: nReverseRequest, in the modes that drive it
    pub forward: bool,
    pub queue: Queue,
    pub stage: Stage,
    // how many times more than once the first byte of the queue is still to be given out
    pub waiting: u8,
    // the channel address last stored, 0 to 127, or none known
    pub known: Option<u8>,
    // the far end's lines and byte as last answered
    pub heard: Answer,
}

// Clauses see what is on its way. A cell is asked for only while cells come back, and only with a place for it.
impl Model for Traffic {
    ghost use Rattle.std.specs.Prelude.{◌≡◌, true};
    ghost use Rattle.traffic.specs.Flow.{Flow};
    ghost use Rattle.traffic.specs.Stages.{asks_rightly, asks_with_room};

    ghost Value = { Flow };

    ghost view = { λ t. record { mode = t.mode; direction = t.direction; forward = t.forward; queue = t.queue; stage = t.stage; waiting = t.waiting; known = t.known; heard = t.heard } };

    ghost invariant = { λ t. (asks_rightly t.stage t.mode t.direction ≡ true) × (asks_with_room t.stage t.queue ≡ true) };
}

impl Traffic {
    pub fn mode(&self) -> Mode
        ensures { result ≡ self.now.mode }
    {
        self.mode
    }

    pub fn direction(&self) -> Direction
        ensures { result ≡ self.now.direction }
    {
        self.direction
    }

    // Bit 2 of DCR.
    pub fn forward(&self) -> bool
        ensures { result ≡ self.now.forward }
    {
        self.forward
    }

    // How many cells are in the queue.
    pub fn queued(&self) -> u8
        ensures is { result ≡ length self.now.queue }
        ensures bounded { result ≤ depth }
    {
        self.queue.len()
    }

    // The first cell of the queue, if there is one.
    pub fn first(&self) -> Option<Cell>
        ensures { result ≡ first self.now.queue }
    {
        self.queue.first()
    }

    // How many times more than once the first byte of the queue is still to be given out.
    pub fn waiting(&self) -> u8
        ensures { result ≡ self.now.waiting }
    {
        self.waiting
    }

    // The channel address last stored, if one is known.
    pub fn known(&self) -> Option<u8>
        ensures { result ≡ self.now.known }
    {
        self.known
    }

    // Where it stands, and that a cell is asked for only where it may come.
    pub fn stage(&self) -> Stage
        ensures is { result ≡ self.now.stage }
        ensures rightly { asks_rightly self.now.stage self.now.mode self.now.direction ≡ true }
        ensures roomy { asks_with_room self.now.stage self.now.queue ≡ true }
    {
        self.stage
    }

    // What the far end answered last.
    pub fn heard(&self) -> Answer
        ensures { result ≡ self.now.heard }
    {
        self.heard
    }
}
