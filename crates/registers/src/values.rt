// The bytes that registers read as, bit by bit.
ghost use Rattle.std.specs.Prelude.{◌≡◌, ◌<◌, ◌^◌};
ghost use Rattle.registers.specs.Values.{bit_of, status, control, extended, config_a, config_b};

use super::config::Fields;
use super::written::{ControlBits, ExtendedBits};
use cell::lines::PeriphLines;
use modes::mode::Mode;

// What a bit of this number adds to its byte.
fn bit_of(bit: bool, number: u8) -> u8
    requires { number < 8 }
    ensures { result ≡ bit_of bit (2 ^ number) }
{
    u8::from(bit) << number
}

// DSR: the far end's lines as they were last answered. PeriphAck reads inverted.
pub fn status(lines: PeriphLines) -> u8
    ensures { result ≡ status lines }
{
    bit_of(!lines.ack, 7)
        + bit_of(lines.clk, 6)
        + bit_of(lines.nackreverse, 5)
        + bit_of(lines.xflag, 4)
        + bit_of(lines.nrequest, 3)
        + 7
}

// DCR. Its other bits read 0.
impl From<ControlBits> for u8 {
    ghost from_gives = { λ bits byte. byte ≡ control bits };

    fn from(bits: ControlBits) -> u8 {
        bit_of(bits.forward, 2) + bit_of(bits.level, 4) + bit_of(bool::from(bits.direction), 5)
    }
}

// CnfgA, a function as the other registers are, though it always reads the same: interrupts are pulsed, a word is one byte, and the byte in the transmitter is not counted in the queue.
pub fn config_a() -> u8
    ensures { result ≡ config_a }
{
    0x10
}

// CnfgB, where `raised` says that the level interrupt is.
pub fn config_b(raised: bool, fields: Fields) -> u8
    ensures { result ≡ config_b raised fields }
{
    bit_of(!raised, 6) + fields.irq_reads() * 8 + fields.dma_reads()
}

// What ECR is read from.
#[derive(Clone, Copy)]
pub struct Extended {
    pub mode: Mode,
    pub bits: ExtendedBits,
    pub full: bool,
    pub empty: bool,
}

impl From<Extended> for u8 {
    ghost from_gives = { λ read byte. byte ≡ extended read };

    fn from(read: Extended) -> u8 {
        u8::from(read.mode) * 32
            + bit_of(read.bits.mask, 4)
            + bit_of(read.bits.dma, 3)
            + bit_of(read.bits.service, 2)
            + bit_of(read.full, 1)
            + bit_of(read.empty, 0)
    }
}
