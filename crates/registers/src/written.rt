// What a byte says that is written to a register.
ghost use Rattle.std.specs.Prelude.{◌≡◌, ◌<◌, ◌^◌};
ghost use Rattle.registers.specs.Written.{bit, control_bits, plain, extended_bits, fields};

use super::config::Fields;
use modes::mode::Direction;

// The bits of DCR that are kept.
#[derive(Clone, Copy)]
pub struct ControlBits {
    // bit 2: with the queue in use, nReverseRequest is high and the far end takes cells
    pub forward: bool,
    // bit 4: the level interrupt
    pub level: bool,
    // bit 5
    pub direction: Direction,
}

// The bits of ECR that are kept beside the mode.
#[derive(Clone, Copy)]
pub struct ExtendedBits {
    // bit 4: faults raise no interrupt
    pub mask: bool,
    // bit 3
    pub dma: bool,
    // bit 2
    pub service: bool,
}

// Whether the bit of this number is 1.
fn bit(number: u8, byte: u8) -> bool
    requires { number < 8 }
    ensures { result ≡ bit (2 ^ number) byte }
{
    byte >> number & 1 == 1
}

impl From<u8> for ControlBits {
    ghost from_gives = { λ byte bits. bits ≡ control_bits byte };

    fn from(byte: u8) -> ControlBits {
        ControlBits {
            forward: bit(2, byte),
            level: bit(4, byte),
            direction: Direction::from(bit(5, byte)),
        }
    }
}

impl ControlBits {
    // Whether no other bit is set, so that DCR can keep all of the byte.
    pub fn all_of(byte: u8) -> bool
        ensures { result ≡ plain byte }
    {
        !(bit(0, byte) || bit(1, byte) || bit(3, byte) || bit(6, byte) || bit(7, byte))
    }
}

impl From<u8> for ExtendedBits {
    ghost from_gives = { λ byte bits. bits ≡ extended_bits byte };

    fn from(byte: u8) -> ExtendedBits {
        ExtendedBits {
            mask: bit(4, byte),
            dma: bit(3, byte),
            service: bit(2, byte),
        }
    }
}

// The fields of a byte that is written to CnfgB.
impl From<u8> for Fields {
    ghost from_gives = { λ byte written. written ≡ fields byte };

    fn from(byte: u8) -> Fields {
        Fields {
            irq: byte / 8 % 8,
            dma: byte % 8,
        }
    }
}
