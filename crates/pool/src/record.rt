// What a pool is made of.
ghost use Rattle.std.specs.Prelude.{◌≡◌};
ghost use Rattle.pool.specs.Pool.{is_on};

// One byte, and the channel that holds it.
#[derive(Clone, Copy, PartialEq, Eq, Debug)]
pub struct Record {
    pub channel: u8,
    pub byte: u8,
}

impl Record {
    pub(crate) fn is_on(&self, channel: u8) -> bool
        ensures { result ≡ is_on channel self.now }
    {
        self.channel == channel
    }
}
