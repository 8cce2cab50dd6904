// What can be asked of any make. A question may be asked of any number, so each asks whether it is a channel; a parameter that knew
// it would ask more of callers.
ghost use Rattle.std.specs.Prelude.{◌≡◌, length};
ghost use Rattle.inserter.specs.Meaning.{held_on, free_on, at_place};
ghost use Rattle.handshake.specs.Seen.{seen};

use super::shaken::Handshake;
use super::storage::Storage;

impl<S: Storage> Handshake<'_, S> {
    pub fn length(&self, channel: u8) -> u32
        ensures { result ≡ length (held_on (seen S.held S.free self.now) channel) }
    {
        if channel < 8 {
            self.store.length_on(channel)
        } else {
            0
        }
    }

    pub fn byte_at(&self, channel: u8, place: u32) -> Option<u8>
        ensures { result ≡ at_place (held_on (seen S.held S.free self.now) channel) place }
    {
        if channel < 8 {
            self.store.byte_on(channel, place)
        } else {
            None
        }
    }

    pub fn free(&self, channel: u8) -> u32
        ensures { result ≡ free_on (seen S.held S.free self.now) channel }
    {
        if channel < 8 {
            self.store.free_on(channel)
        } else {
            0
        }
    }
}
