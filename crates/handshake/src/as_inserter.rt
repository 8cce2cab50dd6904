// A handshake over any storage that has a delay is an inserter.
ghost use Rattle.std.specs.Prelude.{◌≡◌};
ghost use Rattle.inserter.specs.Rules.{adds, Looked, Dropped};
ghost use Rattle.handshake.specs.Seen.{seen, remembered};

use super::shaken::Handshake;
use super::storage::Delayed;
use cell::lines::{Answer, PeriphLines, Shown};
use inserter::interface::Inserter;

impl<S: Delayed> Inserter for Handshake<'_, S> {
    const DELAY: u8 = S::DELAY;

    ghost delay = { S.delay };

    ghost meaning = { seen S.held S.free };

    fn named_delay() -> u8
        ensures { result ≡ S.delay }
    {
        S::named_delay()
    }

    // The first rule that applies is carried out. Of the memory, the look writes the bytes that it adds, and nothing else.
    fn look(&mut self, shown: Shown) -> Answer
        ensures looked { Looked S.delay (seen S.held S.free self.old) shown.lines shown.byte (seen S.held S.free self.new) result }
        ensures memory { S.memory self.new.store ≡ remembered S.rewritten (adds (seen S.held S.free self.old) shown.lines) (S.memory self.old.store) (seen S.held S.free self.old) shown.byte }
    {
        self.look_with(S::named_delay(), shown)
    }

    fn drop_cable(&mut self) -> PeriphLines
        ensures dropped { Dropped S.delay (seen S.held S.free self.old) (seen S.held S.free self.new) result }
        ensures memory { S.memory self.new.store ≡ S.memory self.old.store }
    {
        self.drop_with(S::named_delay())
    }

    // The questions are the handshake's own, which a call by their names means before these.
    fn length(&self, channel: u8) -> u32 {
        self.length(channel)
    }

    fn byte_at(&self, channel: u8, place: u32) -> Option<u8> {
        self.byte_at(channel, place)
    }

    fn free(&self, channel: u8) -> u32 {
        self.free(channel)
    }
}
