// A channel whose bytes are kept.
ghost use Rattle.std.specs.Prelude.{◌≡◌, ◌<◌, ◌≤◌, MatchResult};

use std::error::Error;
use std::fmt;

// One of the eight television channels, 0 to 7.
#[derive(Clone, Copy, PartialEq, Eq, Debug)]
pub struct Channel {
    number: u8,
    ghost kept: { number < 8 },
}

// A number above 7: no bytes are kept for it.
#[derive(Clone, Copy, PartialEq, Eq, Debug)]
pub struct NoChannel(pub u8);

impl fmt::Display for NoChannel {
    fn fmt<W: fmt::Write>(&self, f: &mut fmt::Formatter<W>) -> fmt::Result {
        write!(f, "{} is no channel from 0 to 7", self.0)
    }
}

impl Error for NoChannel {}

impl TryFrom<u8> for Channel {
    type Error = NoChannel;

    ghost try_from_gives = { λ number result. MatchResult result (λ c. c.number ≡ number) (λ e. (8 ≤ number) × (e.0 ≡ number)) };

    fn try_from(number: u8) -> Result<Channel, NoChannel> {
        if number < 8 {
            Ok(Channel { number })
        } else {
            Err(NoChannel(number))
        }
    }
}

impl From<Channel> for u8 {
    ghost from_gives = { λ channel number. number ≡ channel.number };

    fn from(channel: Channel) -> u8 {
        channel.number
    }
}
