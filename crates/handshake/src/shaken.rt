// The state of every make: a storage for the bytes, and what the handshake has come to.
ghost use Rattle.std.specs.Prelude.{◌≡◌, true};
ghost use Rattle.cell.specs.Reading.{start};
ghost use Rattle.inserter.specs.Meaning.{resting};
ghost use Rattle.inserter.specs.Rules.{fits_as, adds, Looked, Dropped};
ghost use Rattle.handshake.specs.Seen.{seen, Read, remembered, stores, withdrawn};

use super::faces::at_rest;
use super::storage::{Delayed, Storage};
use cell::cells::Cell;
use cell::cursor::Cursor;
use cell::lines::{Answer, PeriphLines, Shown};
use inserter::front::{Front, Rule};

// Clauses say by `seen S.held S.free` what it means: a Model cannot, since a meaning holds functions, and the interface's
// `meaning`, named by a quote, is longer.
#[derive(Drop)]
pub struct Handshake<'c, S> {
    pub store: S,
    // the cells still on offer
    pub offers: &'c [Cell],
    pub cursor: Cursor,
    pub front: Front,
}

impl<'c, S: Delayed> Handshake<'c, S> {
    // A new make over a storage, offering these cells.
    pub fn new(store: S, offers: &'c [Cell]) -> Handshake<'c, S>
        ensures store { result.store ≡ store }
        ensures offers { result.offers.now ≡ offers.now }
        ensures cursor { result.cursor ≡ start }
        ensures front { result.front ≡ resting S.delay }
    {
        Handshake {
            store,
            offers,
            cursor: Cursor::start(),
            front: at_rest(S::named_delay()),
        }
    }
}

impl<S: Storage> Handshake<'_, S> {
    // A cell that fits joins the reading.
    fn read(&mut self, cell: Cell)
        requires { fits_as cell.tag (seen S.held S.free self.old) ≡ true }
        ensures read { Read cell (seen S.held S.free self.old) (seen S.held S.free self.new) }
        ensures memory { S.memory self.new.store ≡ remembered S.rewritten (stores self.old.cursor cell) (S.memory self.old.store) (seen S.held S.free self.old) cell.byte }
    {
        let here = self.cursor;
        self.cursor = here.after(cell);
        if bool::from(cell.tag) && here.channel < 8 {
            self.store.put(here.channel, here.repeats(), cell.byte);
        }
    }

    // The first cell on offer is no longer on offer.
    fn withdraw(&mut self)
        ensures state { seen S.held S.free self.new ≡ withdrawn (seen S.held S.free self.old) }
        ensures memory { S.memory self.new.store ≡ S.memory self.old.store }
    {
        if let [_, left @ ..] = self.offers {
            self.offers = left;
        }
    }

    // A look, by a delay that may be another at each: the first rule that applies is carried out. Of the memory, the look writes
    // the bytes that it adds, and nothing else.
    pub fn look_with(&mut self, delay: u8, shown: Shown) -> Answer
        ensures looked { Looked delay (seen S.held S.free self.old) shown.lines shown.byte (seen S.held S.free self.new) result }
        ensures memory { S.memory self.new.store ≡ remembered S.rewritten (adds (seen S.held S.free self.old) shown.lines) (S.memory self.old.store) (seen S.held S.free self.old) shown.byte }
    {
        let rule = self.rule(shown.lines);
        let front = self.front_after(rule, delay);
        // the two rules that do more than change the front
        match rule {
            Rule::Take => self.read(Cell::from(shown)),
            Rule::Withdraw => self.withdraw(),
            _ => {}
        }
        self.front = front;
        self.answer()
    }

    // The cable is dropped, and as many looks as this delay are let pass before the next cell: bytes, offers and memory stay.
    pub fn drop_with(&mut self, delay: u8) -> PeriphLines
        ensures dropped { Dropped delay (seen S.held S.free self.old) (seen S.held S.free self.new) result }
        ensures memory { S.memory self.new.store ≡ S.memory self.old.store }
    {
        self.cursor = Cursor::start();
        self.front = at_rest(delay);
        self.lines()
    }
}
