// Which rule a look is answered by.
ghost use Rattle.std.specs.Prelude.{◌≡◌};
ghost use Rattle.inserter.specs.declared.front.Way.TheVariants.{Forward, Reverse};
ghost use Rattle.inserter.specs.Meaning.{any};
ghost use Rattle.inserter.specs.Rules.{fits_as, rule_of};
ghost use Rattle.handshake.specs.Seen.{seen};

use super::shaken::Handshake;
use super::storage::Storage;
use cell::cells::Tag;
use cell::lines::HostLines;
use inserter::front::{Rule, Way};

impl<S: Storage> Handshake<'_, S> {
    // Whether cells are still on offer.
    pub(crate) fn offering(&self) -> bool
        ensures { result ≡ any self.now.offers.now }
    {
        !self.offers.is_empty()
    }

    // Whether a cell with this tag fits as the reading stands.
    fn fitting(&self, tag: Tag) -> bool
        ensures { result ≡ fits_as tag (seen S.held S.free self.now) }
    {
        match tag {
            Tag::Command => true,
            Tag::Data => self.cursor.channel > 7
                || self.cursor.repeats() <= self.store.free_on(self.cursor.channel),
        }
    }

    // The first rule that applies.
    pub(crate) fn rule(&self, host: HostLines) -> Rule
        ensures { result ≡ rule_of (seen S.held S.free self.now) host }
    {
        match self.front.way {
            Way::Forward => self.forward_rule(host),
            Way::Reverse => self.reverse_rule(host),
        }
    }

    fn forward_rule(&self, host: HostLines) -> Rule
        requires { self.now.front.way ≡ Forward }
        ensures { result ≡ rule_of (seen S.held S.free self.now) host }
    {
        let ack = self.front.ack;
        if !host.nreverse && host.clk && !ack {
            Rule::TurnReverse
        } else if !self.fitting(Tag::from(host.ack)) {
            Rule::Rest
        } else if !host.clk && !ack {
            Rule::Acknowledge
        } else if host.clk && ack {
            Rule::Take
        } else {
            Rule::Rest
        }
    }

    fn reverse_rule(&self, host: HostLines) -> Rule
        requires { self.now.front.way ≡ Reverse }
        ensures { result ≡ rule_of (seen S.held S.free self.now) host }
    {
        let shown = self.front.shown.is_some();
        if host.nreverse {
            Rule::TurnForward
        } else if !host.ack && !shown && self.offering() {
            Rule::Show
        } else if !self.front.clk && host.ack {
            Rule::Release
        } else if shown && self.front.clk && !host.ack {
            Rule::Withdraw
        } else {
            Rule::Rest
        }
    }
}
