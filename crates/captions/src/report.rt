// What was done, in print.
use host::line::{NotSent, Outcome};
use inserter::interface::Inserter;
use listing::{held, hex, text};
use options::{Make, Setup};
use std::io;

// What is played to. An impl of Display would have the same two arms, and the patch on a line of its own.
pub(crate) fn print_setup(rt: &HostRuntime, setup: Setup) -> io::Result<()> {
    let places = setup.places;
    match setup.make {
        Make::Lanes => println!(rt; "eight lanes of {places} places each")?,
        Make::Pool => println!(rt; "a pool of {places} places")?,
    }
    if let Some(entries) = setup.patch {
        println!(rt; "patch: channels 0 to 7 are the inserter's {entries:?}")?;
    }
    Ok(())
}

// What became of all lines, counted.
#[derive(Clone, Copy, Default)]
struct Counts {
    sent: usize,
    unsent: usize,
    bad: usize,
    cells: usize,
    looks: u128,
}

impl Counts {
    // One line more.
    fn count(&mut self, outcome: &Outcome) {
        match outcome {
            Ok(played) => {
                self.sent = self.sent.saturating_add(1);
                self.cells = self.cells.saturating_add(played.taken);
                self.looks = self.looks.saturating_add(played.looks);
            }
            Err(NotSent::Empty) => {}
            Err(NotSent::Undelivered(_)) => self.unsent = self.unsent.saturating_add(1),
            Err(NotSent::Bad(_)) => self.bad = self.bad.saturating_add(1),
        }
    }
}

// Each line that was not sent, with its number and why, and then how many there were of each kind. All is told in one pass, since a
// long script has more outcomes than a cache holds.
pub(crate) fn print_lines(rt: &HostRuntime, told: &[Outcome]) -> io::Result<()> {
    let mut counts = Counts::default();
    for (before, outcome) in told.iter().enumerate() {
        counts.count(outcome);
        match outcome {
            Ok(_) | Err(NotSent::Empty) => {}
            Err(why) => println!(rt; "line {}: {why}", before + 1)?,
        }
    }
    let Counts {
        sent,
        unsent,
        bad,
        cells,
        looks,
    } = counts;
    let lines = told.len();
    println!(rt; "{lines} lines: {sent} captions sent, {unsent} not sent, {bad} bad")?;
    println!(rt; "{cells} cells taken in {looks} looks")
}

// Each channel: how many bytes it holds and has room for, the bytes in hex, and as text.
pub(crate) fn print_channels<I: Inserter>(rt: &HostRuntime, inserter: &I) -> anyhow::Result<()> {
    // these are channels, and no places in a list
    for channel in 0..8u8 {
        let length = inserter.length(channel);
        let free = inserter.free(channel);
        println!(rt; "channel {channel}: {length} bytes, {free} places free")?;
        if length > 0 {
            let bytes = held(rt.alloc(), inserter, channel)?;
            let digits = hex(rt.alloc(), &bytes)?;
            let letters = text(rt.alloc(), &bytes)?;
            println!(rt; "  hex  {digits}")?;
            println!(rt; "  text {letters}")?;
        }
    }
    Ok(())
}
