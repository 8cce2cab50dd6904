// A new record, clearing, and what a change of mode and a write of DCR do.
ghost use Rattle.std.specs.Prelude.{◌≡◌};
ghost use Rattle.traffic.specs.Flow.{new_flow};
ghost use Rattle.traffic.specs.Clearing.{clears, cleared, entered, entry_clears, steered, keeping};

use super::record::Traffic;
use super::stage::Stage;
use cell::lines::{Answer, PeriphLines};
use modes::mode::{Direction, Mode};
use queue::fifo::Queue;

impl Traffic {
    // Of a new port, with the far end's lines as they are handed over.
    pub fn new(lines: PeriphLines) -> Traffic
        ensures { result ≡ new_flow lines }
    {
        Traffic {
            mode: Mode::Spp,
            direction: Direction::Out,
            forward: false,
            queue: Queue::new(),
            stage: Stage::Idle,
            waiting: 0,
            known: None,
            heard: Answer { lines, byte: 0 },
        }
    }

    // How many cells a clearing would remove, and one more for a waiting count.
    pub fn clears(&self) -> u8
        ensures { result ≡ clears self.now }
    {
        let sent = u8::from(matches!(self.stage, Stage::Low(_)));
        let counted = u8::from(self.waiting > 0);
        sent + self.queue.len() + counted
    }

    // Empties queue, transmitter and waiting count, and forgets the address.
    pub fn clear(&mut self) -> u8
        ensures answer { result ≡ clears self.old }
        ensures flow { self.new ≡ cleared self.old }
    {
        let number = self.clears();
        self.queue = Queue::new();
        self.stage = Stage::Idle;
        self.waiting = 0;
        self.known = None;
        number
    }

    // Enters a mode: a change of mode clears.
    pub fn enter(&mut self, mode: Mode) -> u8
        ensures answer { result ≡ entry_clears mode self.old }
        ensures flow { self.new ≡ entered mode self.old }
    {
        if mode == self.mode {
            return 0;
        }
        let number = self.clear();
        self.mode = mode;
        if mode == Mode::Spp {
            self.direction = Direction::Out;
        }
        number
    }

    // A write of DCR: bit 2, and the direction where the mode lets it change.
    pub fn steer(&mut self, forward: bool, direction: Direction)
        ensures { self.new ≡ steered forward direction self.old }
    {
        self.forward = forward;
        if self.mode == Mode::Byte {
            self.direction = direction;
        }
    }

    // Keeps what the far end answered.
    pub fn keep(&mut self, answer: Answer)
        ensures { self.new ≡ keeping answer self.old }
    {
        self.heard = answer;
    }
}
