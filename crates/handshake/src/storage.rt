// What the handshake needs of a make: where its bytes are kept. With a delay besides, the handshake over it is an inserter.
ghost use Rattle.std.specs.Prelude.{◌≡◌, ℕ, min, List, length};
ghost use Rattle.inserter.specs.Meaning.{at_place};
ghost use Rattle.handshake.specs.Storage.{Grown};

pub trait Storage {
    ghost held: { Self → ℕ → List ℕ };

    ghost free: { Self → ℕ → ℕ };

    // the memory handed over, and what it is once a byte was written n times on a channel that held so many
    ghost Memory: { Type 0 };

    ghost memory: { Self → Memory };

    ghost rewritten: { Memory → ℕ → ℕ → ℕ → ℕ → Memory };

    fn length_on(&self, channel: u8) -> u32
        ensures { result ≡ length (held self.now channel) };

    fn byte_on(&self, channel: u8, place: u32) -> Option<u8>
        ensures { result ≡ at_place (held self.now channel) place };

    fn free_on(&self, channel: u8) -> u32
        ensures { result ≡ free self.now channel };

    // The byte n times more on a channel, or as often as it has places. The three are no value of their own: n is cut to the places
    // on the way, and the pool has a record of the other two already.
    fn put(&mut self, channel: u8, n: u32, byte: u8)
        ensures grown { Grown channel (min n (free self.old channel)) byte (held self.old) (free self.old) (held self.new) (free self.new) }
        ensures memory { memory self.new ≡ rewritten (memory self.old) (length (held self.old channel)) channel (min n (free self.old channel)) byte };
}

// A storage that names a fixed delay: how many looks the handshake over it lets pass before it acknowledges a cell.
pub trait Delayed: Storage {
    const DELAY: u8;

    ghost delay: { ℕ };

    // The delay again, as the interface of inserters has it.
    fn named_delay() -> u8
        ensures { result ≡ delay };
}
