// One line of the table. After the letter of the lanes and a blank it is a look, as `LHH 41` (HostClk, HostAck, nReverseRequest, byte in hex), or `drop`, or `ask`.
use cell::lines::{HostLines, PeriphLines, Shown};
use inserter::interface::Inserter;
use listing::{held, hex};
use std::fmt;

// The lines of an answer in print: PeriphClk, PeriphAck, nAckReverse, nPeriphRequest and Xflag, each high or low.
#[derive(Clone, Copy)]
struct Levels(PeriphLines);

impl fmt::Display for Levels {
    fn fmt<W: fmt::Write>(&self, f: &mut fmt::Formatter<W>) -> fmt::Result {
        let lines = self.0;
        for high in [
            lines.clk,
            lines.ack,
            lines.nackreverse,
            lines.nrequest,
            lines.xflag,
        ] {
            write!(f, "{}", if high { 'H' } else { 'L' })?;
        }
        Ok(())
    }
}

// By hand: `to_digit` takes small letters too, and here they count as 0.
fn digit(letter: u8) -> u8 {
    match letter {
        b'0'..=b'9' => letter - b'0',
        b'A'..=b'F' => letter - b'A' + 10,
        _ => 0,
    }
}

pub(crate) fn answer<I: Inserter>(
    rt: &HostRuntime,
    inserter: &mut I,
    line: &[u8],
) -> anyhow::Result<()> {
    match line {
        [_, b' ', b'd', b'r', b'o', b'p'] => {
            println!(rt; "{}", Levels(inserter.drop_cable()))?;
        }
        [_, b' ', b'a', b's', b'k'] => ask(rt, inserter)?,
        [_, b' ', clk, ack, nreverse, b' ', high, low] => {
            let lines = HostLines {
                clk: *clk == b'H',
                ack: *ack == b'H',
                nreverse: *nreverse == b'H',
            };
            let byte = (digit(*high) & 15) * 16 + (digit(*low) & 15);
            let got = inserter.look(Shown { lines, byte });
            println!(rt; "{} {:02X}", Levels(got.lines), got.byte)?;
        }
        _ => println!(rt; "?")?,
    }
    Ok(())
}

// What each channel holds and has room for; the last two are no channels that keep bytes.
fn ask<I: Inserter>(rt: &HostRuntime, inserter: &I) -> anyhow::Result<()> {
    for channel in [0u8, 1, 2, 3, 4, 5, 6, 7, 8, 127] {
        let length = inserter.length(channel);
        let free = inserter.free(channel);
        let bytes = held(rt.alloc(), inserter, channel)?;
        let digits = hex(rt.alloc(), &bytes)?;
        let past = inserter.byte_at(channel, length).is_none();
        println!(rt; "{channel}: {length} {free} {past} {digits}")?;
    }
    Ok(())
}
