// The modes of the port, and the direction of its cable.
ghost use Rattle.std.specs.Prelude.{◌≡◌, ok_or};
ghost use Rattle.modes.specs.Modes.{code_of, mode_at, mode_in, inward, direction_at, admits, every, queues, forwards, outward, receives};

use std::error::Error;
use std::fmt;

// Bits 7 to 5 of ECR.
#[derive(Clone, Copy, PartialEq, Eq, Debug)]
pub enum Mode {
    // the standard port, output only
    Spp = 0b000,
    // both directions, byte by byte
    Byte = 0b001,
    // the extended capabilities port, with its queue
    Ecp = 0b011,
    // the queue is tested, and the cable is left alone
    Test = 0b110,
    // the configuration registers can be reached
    Config = 0b111,
}

// Three bits that are none of the port's modes.
#[derive(Clone, Copy, PartialEq, Eq, Debug)]
pub struct NoMode(pub u8);

// Bit 5 of DCR: 0 is out, 1 is in.
#[derive(Clone, Copy, PartialEq, Eq, Debug)]
pub enum Direction {
    Out,
    In,
}

// Which modes may be entered. It depends on what hangs on the cable. There is a field for each mode: a list of modes would
// also have an order and repeats, and a set of flags would give each mode a second name, and `admit` the same five arms.
#[derive(Clone, Copy)]
pub struct Modes {
    pub spp: bool,
    pub byte: bool,
    pub ecp: bool,
    pub test: bool,
    pub config: bool,
}

impl Modes {
    // With an inserter on the cable: all of them.
    pub fn every() -> Modes
        ensures { result ≡ every }
    {
        Modes {
            spp: true,
            byte: true,
            ecp: true,
            test: true,
            config: true,
        }
    }

    pub fn admit(self, mode: Mode) -> bool
        ensures { result ≡ admits self mode }
    {
        match mode {
            Mode::Spp => self.spp,
            Mode::Byte => self.byte,
            Mode::Ecp => self.ecp,
            Mode::Test => self.test,
            Mode::Config => self.config,
        }
    }
}

// The three bits as a number, and the mode that they say.
impl From<Mode> for u8 {
    ghost from_gives = { λ mode code. code ≡ code_of mode };

    fn from(mode: Mode) -> u8 {
        mode as u8
    }
}

impl TryFrom<u8> for Mode {
    type Error = NoMode;

    ghost try_from_gives = { λ code result. result ≡ ok_or (mode_at code) (record { 0 = code }) };

    fn try_from(code: u8) -> Result<Mode, NoMode> {
        match code {
            0 => Ok(Mode::Spp),
            1 => Ok(Mode::Byte),
            3 => Ok(Mode::Ecp),
            6 => Ok(Mode::Test),
            7 => Ok(Mode::Config),
            _ => Err(NoMode(code)),
        }
    }
}

impl fmt::Display for NoMode {
    fn fmt<W: fmt::Write>(&self, f: &mut fmt::Formatter<W>) -> fmt::Result {
        write!(f, "the port has no mode {:03b}", self.0)
    }
}

impl Error for NoMode {}

// From a bit of a register, and to one.
impl From<bool> for Direction {
    ghost from_gives = { λ inward direction. direction ≡ direction_at inward };

    fn from(inward: bool) -> Direction {
        if inward {
            Direction::In
        } else {
            Direction::Out
        }
    }
}

impl From<Direction> for bool {
    ghost from_gives = { λ direction bit. bit ≡ inward direction };

    fn from(direction: Direction) -> bool {
        direction == Direction::In
    }
}

impl Mode {
    // The mode that a byte written to ECR says, if the port has it.
    pub fn of_ecr(byte: u8) -> Option<Mode>
        ensures { result ≡ mode_in byte }
    {
        Mode::try_from(byte / 32).ok()
    }

    // Whether the queue is in use: full, empty and the thresholds are told of it.
    pub fn queues(self) -> bool
        ensures { result ≡ queues self }
    {
        matches!(self, Mode::Ecp | Mode::Test)
    }

    // Whether cells stored now are forward cells, on their way to the far end. Mode and direction are two arguments, here and
    // below: two registers hold them, and what asks for the mode alone, as `queues`, has no use for the other.
    pub fn forwards(self, direction: Direction) -> bool
        ensures { result ≡ forwards self direction }
    {
        self == Mode::Ecp && direction == Direction::Out
    }

    // Whether the queue faces outward, so that DMA fills it: just where cells that are stored are forward cells.
    pub fn outward(self, direction: Direction) -> bool
        ensures { result ≡ outward self direction }
    {
        self.forwards(direction)
    }

    // Whether cells come back from the far end into the queue. This and `forwards` are a comparison each: a function for both
    // would need the direction wanted beside the direction.
    pub fn receives(self, direction: Direction) -> bool
        ensures { result ≡ receives self direction }
    {
        self == Mode::Ecp && direction == Direction::In
    }
}
