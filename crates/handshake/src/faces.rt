// What the far end shows: its front after a rule, its lines and its answer.
ghost use Rattle.std.specs.Prelude.{◌≡◌};
ghost use Rattle.inserter.specs.Meaning.{lines_of, answer_of, resting};
ghost use Rattle.inserter.specs.Rules.{faced, showing};
ghost use Rattle.handshake.specs.Seen.{seen};

use super::shaken::Handshake;
use super::storage::Storage;
use cell::lines::{Answer, PeriphLines};
use inserter::front::{Front, Rule, Way};

// The front of a new inserter, and of one whose cable was dropped.
pub fn at_rest(delay: u8) -> Front
    ensures { result ≡ resting delay }
{
    Front {
        shown: None,
        way: Way::Forward,
        clk: true,
        ack: false,
        nackreverse: true,
        patience: delay,
    }
}

impl<S: Storage> Handshake<'_, S> {
    // The front after a rule is carried out. Each rule has an arm, as it has a line in the rules, and no rule is a value that
    // somebody hands in, as a closure would be.
    pub(crate) fn front_after(&self, rule: Rule, delay: u8) -> Front
        ensures { result ≡ faced rule delay self.now.offers.now self.now.front }
    {
        let front = self.front;
        match rule {
            Rule::TurnForward => Front {
                patience: front.patience,
                ..at_rest(delay)
            },
            Rule::TurnReverse => Front {
                way: Way::Reverse,
                nackreverse: false,
                ..front
            },
            Rule::Acknowledge if front.patience == 0 => Front {
                ack: true,
                patience: delay,
                ..front
            },
            Rule::Acknowledge => Front {
                patience: front.patience - 1,
                ..front
            },
            Rule::Take => Front {
                ack: false,
                ..front
            },
            Rule::Show => self.showing(),
            Rule::Release => Front { clk: true, ..front },
            Rule::Withdraw => Front {
                shown: None,
                ack: false,
                ..front
            },
            Rule::Rest => front,
        }
    }

    // The front with the first cell on offer on show.
    fn showing(&self) -> Front
        ensures { result ≡ showing self.now.offers.now self.now.front }
    {
        match self.offers {
            [] => self.front,
            [cell, ..] => Front {
                shown: Some(*cell),
                clk: false,
                ack: bool::from(cell.tag),
                ..self.front
            },
        }
    }

    pub(crate) fn lines(&self) -> PeriphLines
        ensures { result ≡ lines_of (seen S.held S.free self.now) }
    {
        let front = self.front;
        PeriphLines {
            clk: front.clk,
            ack: front.ack,
            nackreverse: front.nackreverse,
            nrequest: !self.offering(),
            xflag: true,
        }
    }

    pub(crate) fn answer(&self) -> Answer
        ensures { result ≡ answer_of (seen S.held S.free self.now) }
    {
        Answer {
            lines: self.lines(),
            byte: self.front.shown.map_or(0, |cell| cell.byte),
        }
    }
}
