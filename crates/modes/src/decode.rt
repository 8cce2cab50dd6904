// Which register an address means: that depends on the mode, on the direction, and on whether it is read or written.
ghost use Rattle.std.specs.Prelude.{◌≡◌};
ghost use Rattle.modes.specs.Decode.{decoded, read_at, written_at, elsewhere};

use super::mode::{Direction, Mode};
use refusal::Refusal;

// The six addresses.
pub const DATA: u16 = 0x000;

pub const DSR: u16 = 0x001;

pub const DCR: u16 = 0x002;

pub const FIFO: u16 = 0x400;

pub const CNFGB: u16 = 0x401;

pub const ECR: u16 = 0x402;

#[derive(Clone, Copy)]
pub enum Access {
    Read,
    Write,
}

// What is accessed.
#[derive(Clone, Copy, PartialEq, Eq, Debug)]
pub enum Register {
    // the byte last written to DATA
    Data,
    // the byte that the far end last answered
    FarByte,
    // DSR
    Status,
    // DCR
    Control,
    // the queue, where a write stores a command
    Commands,
    // the queue, where a write stores data
    Fifo,
    ConfigA,
    ConfigB,
    // ECR
    Extended,
}

pub fn decode(
    access: Access,
    address: u16,
    mode: Mode,
    direction: Direction,
) -> Result<Register, Refusal>
    ensures { result ≡ decoded access address mode direction }
{
    match access {
        Access::Read => read_at(address, mode, direction),
        Access::Write => written_at(address, mode),
    }
}

// Reads and writes are a match each, with an arm for each line of the port's table of registers: the address, and as a guard
// the mode and the direction that the line wants.
fn read_at(address: u16, mode: Mode, direction: Direction) -> Result<Register, Refusal>
    ensures { result ≡ read_at address mode direction }
{
    match address {
        DATA if mode == Mode::Byte && direction == Direction::In => Ok(Register::FarByte),
        DATA if mode == Mode::Spp || mode == Mode::Byte => Ok(Register::Data),
        DSR => Ok(Register::Status),
        DCR => Ok(Register::Control),
        FIFO if mode.queues() => Ok(Register::Fifo),
        FIFO if mode == Mode::Config => Ok(Register::ConfigA),
        CNFGB if mode == Mode::Config => Ok(Register::ConfigB),
        ECR => Ok(Register::Extended),
        _ => Err(elsewhere(address)),
    }
}

fn written_at(address: u16, mode: Mode) -> Result<Register, Refusal>
    ensures { result ≡ written_at address mode }
{
    match address {
        DATA if mode == Mode::Spp || mode == Mode::Byte => Ok(Register::Data),
        DATA if mode == Mode::Ecp => Ok(Register::Commands),
        DCR => Ok(Register::Control),
        FIFO if mode.queues() => Ok(Register::Fifo),
        CNFGB if mode == Mode::Config => Ok(Register::ConfigB),
        ECR => Ok(Register::Extended),
        _ => Err(elsewhere(address)),
    }
}

// Why an address where nothing is accessed is refused: it is none of the six, or the access is undefined.
fn elsewhere(address: u16) -> Refusal
    ensures { result ≡ elsewhere address }
{
    match address {
        DATA | DSR | DCR | FIFO | CNFGB | ECR => Refusal::Access,
        _ => Refusal::Address,
    }
}
