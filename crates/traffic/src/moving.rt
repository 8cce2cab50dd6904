// The port's half of a step of the cable: at most one move, then what is shown. What the far end does with it is not seen here.
ghost use Rattle.std.specs.Prelude.{◌≡◌, not, ◌&&◌, [], ◌∷◌, ◌++◌};
ghost use Rattle.queue.specs.Cells.{room};
ghost use Rattle.traffic.specs.declared.stage.Stage.TheVariants.{Idle, Asked};
ghost use Rattle.traffic.specs.Flow.{sends, gets, with_queue};
ghost use Rattle.traffic.specs.Moving.{begun, moved, shown, reverse_line, heard_cell};

use super::record::Traffic;
use super::stage::Stage;
use cell::cells::Cell;
use cell::lines::{HostLines, PeriphLines, Shown};
use modes::mode::Mode;

impl Traffic {
    // The one move that stage and lines allow, if any. The rules of a step are a table of the stage and the lines last
    // answered, and the match is that table.
    pub fn advance(&mut self)
        ensures { self.new ≡ moved self.old }
    {
        match (self.stage, self.heard.lines) {
            (
                Stage::Idle,
                PeriphLines {
                    nackreverse: true,
                    ack: false,
                    ..
                },
            ) if self.may_send() => self.begin(),
            (
                Stage::Idle,
                PeriphLines {
                    nackreverse: false,
                    clk: false,
                    ..
                },
            ) if self.may_ask() => self.stage = Stage::Asked,
            (Stage::Low(cell), PeriphLines { ack: true, .. }) => self.stage = Stage::High(cell),
            (Stage::High(_), PeriphLines { ack: false, .. }) => self.stage = Stage::Idle,
            (Stage::Asked, PeriphLines { clk: true, .. }) => self.receive(),
            _ => {}
        }
    }

    // What the port shows, where `data` is the byte last written to DATA.
    pub fn shown(&self, data: u8) -> Shown
        ensures { result ≡ shown «data» self.now }
    {
        let nreverse = self.nreverse();
        let (clk, ack, byte) = match self.stage {
            Stage::Idle => (true, false, data),
            Stage::Low(cell) => (false, bool::from(cell.tag), cell.byte),
            Stage::High(cell) => (true, bool::from(cell.tag), cell.byte),
            Stage::Asked => (true, true, data),
        };
        Shown {
            lines: HostLines { clk, ack, nreverse },
            byte,
        }
    }

    // Whether mode, direction and bit 2 let a cell go out.
    fn may_send(&self) -> bool
        ensures { result ≡ (sends self.now && self.now.forward) }
    {
        self.mode.forwards(self.direction) && self.forward
    }

    // Whether mode, direction, bit 2 and the queue let a cell come back.
    fn may_ask(&self) -> bool
        ensures { result ≡ (gets self.now && (not self.now.forward && room 1 self.now.queue)) }
    {
        self.mode.receives(self.direction) && !self.forward && self.queue.room_for(1).is_ok()
    }

    // The first cell, if there is one, moves to the transmitter.
    fn begin(&mut self)
        ensures { self.new ≡ begun self.old.queue self.old }
    {
        if let Some(cell) = self.queue.take_first() {
            self.stage = Stage::Low(cell);
        }
    }

    // The cell asked for is queued. There is room: it was asked for with room, and nothing was stored since.
    fn receive(&mut self)
        requires { self.old.stage ≡ Asked }
        ensures { self.new ≡ with_queue (self.old.queue ++ heard_cell self.old ∷ []) Idle self.old }
    {
        let _ = self.queue.push(Cell::from(self.heard));
        self.stage = Stage::Idle;
    }

    // nReverseRequest.
    fn nreverse(&self) -> bool
        ensures { result ≡ reverse_line self.now.mode self.now.forward }
    {
        match self.mode {
            Mode::Byte | Mode::Ecp => self.forward,
            _ => true,
        }
    }
}
