// Cells given to an inserter, one after the other.
ghost use Rattle.std.specs.Prelude.{◌≡◌, ◌+◌, ◌<◌};
ghost use Rattle.inserter.specs.Meaning.{resting};
ghost use Rattle.host.specs.Playing.{shown_as, Asked, Given, Plays};

use cell::cells::Cell;
use cell::lines::{HostLines, Shown};
use inserter::interface::Inserter;

// What became of cells that were given to an inserter.
#[derive(Clone, Copy, PartialEq, Eq, Debug)]
pub struct Played {
    // how many it took
    pub taken: usize,
    // how many looks that was; a slice has fewer than 2^64 cells, and each costs at most 257
    pub looks: u128,
}

// A cell as the host shows it: its byte, HostAck as its tag, and nReverseRequest high.
fn shown_as(cell: Cell, clk: bool) -> Shown
    ensures { result ≡ shown_as clk cell }
{
    let lines = HostLines {
        clk,
        ack: bool::from(cell.tag),
        nreverse: true,
    };
    Shown {
        lines,
        byte: cell.byte,
    }
}

// How many looks a cell costs that is taken.
fn cost<I: Inserter>() -> u128
    ensures cost { result ≡ I.delay + 2 }
    ensures small { result < 258 }
{
    u128::from(I::named_delay()) + 2
}

// Shows a cell with HostClk low for as many looks as the make's delay asks for, and says whether it was acknowledged.
fn acknowledged<I: Inserter>(inserter: &mut I, cell: Cell) -> bool
    requires { (I.meaning inserter.old).front ≡ resting I.delay }
    ensures { Asked I.delay cell (I.meaning inserter.old) result (I.meaning inserter.new) }
{
    let shown = shown_as(cell, false);
    // as many times, and no place in a list
    for _past in 0..I::named_delay() {
        let _ = inserter.look(shown);
    }
    inserter.look(shown).lines.ack
}

// Gives one cell to an inserter at rest, which takes it exactly where it fits.
fn give<I: Inserter>(inserter: &mut I, cell: Cell) -> bool
    requires { (I.meaning inserter.old).front ≡ resting I.delay }
    ensures { Given I.delay cell (I.meaning inserter.old) result (I.meaning inserter.new) }
{
    let ready = acknowledged(inserter, cell);
    if ready {
        let _ = inserter.look(shown_as(cell, true));
    }
    ready
}

// Drops the cable, so that the inserter is at rest whatever went before, and gives it the cells up to the first that does not fit.
pub fn play<I: Inserter>(inserter: &mut I, cells: &[Cell]) -> Played
    ensures { Plays I.delay (I.meaning inserter.old) cells.now (I.meaning inserter.new) result.taken result.looks }
{
    let each = cost::<I>();
    let mut looks = 0;
    let _ = inserter.drop_cable();
    for (taken, cell) in cells.iter().enumerate() {
        if !give(inserter, *cell) {
            let looks = looks + each - 1;
            return Played { taken, looks };
        }
        looks += each;
    }
    let taken = cells.len();
    Played { taken, looks }
}
