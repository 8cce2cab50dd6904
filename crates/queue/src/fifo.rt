// What the queue is: cells are put in at the end and taken off the front.
ghost use Rattle.std.specs.Prelude.{◌≡◌, ◌≤◌, [], length, Some, codes};
ghost use Rattle.queue.specs.Depth.{depth};
ghost use Rattle.queue.specs.Cells.{empty, full, room, room_answer, pushed, first, rest};

use super::ring::Ring;
use cell::cells::{Cell, Tag};
use std::error::Error;
use std::fmt;
use std::marker::Model;

// How many cells the queue holds at most.
pub const DEPTH: usize = 16;

#[derive(Drop)]
pub struct Queue {
    cells: Ring<Cell, DEPTH>,
}

// Clauses see the cells in order, the first to leave first.
impl Model for Queue {
    ghost use Rattle.std.specs.Prelude.{List};
    ghost use Rattle.cell.specs.declared.cells.Cell.{Cell};

    ghost Value = { List Cell };

    ghost view = { λ q. q.cells };
}

// The queue has no room for what was to be put into it. Nothing was put.
#[derive(Clone, Copy, PartialEq, Eq, Debug)]
pub struct NoRoom;

impl fmt::Display for NoRoom {
    ghost output = { λ _. Some (codes "the queue has no room for that") };

    fn fmt<W: fmt::Write>(&self, f: &mut fmt::Formatter<W>) -> fmt::Result {
        f.write_str("the queue has no room for that")
    }
}

impl Error for NoRoom {}

impl Queue {
    pub fn new() -> Queue
        ensures { result ≡ [] }
    {
        Queue {
            cells: Ring::new(Cell {
                byte: 0,
                tag: Tag::Data,
            }),
        }
    }

    pub fn len(&self) -> u8
        ensures is { result ≡ length self.now }
        ensures bounded { result ≤ depth }
    {
        self.cells.len() as u8
    }

    pub fn is_empty(&self) -> bool
        ensures { result ≡ empty self.now }
    {
        self.cells.len() == 0
    }

    pub fn is_full(&self) -> bool
        ensures { result ≡ full self.now }
    {
        self.cells.len() >= DEPTH
    }

    // Whether so many cells more fit.
    pub fn room_for(&self, cells: usize) -> Result<(), NoRoom>
        ensures { result ≡ room_answer (room cells self.now) }
    {
        if cells <= DEPTH - self.cells.len() {
            Ok(())
        } else {
            Err(NoRoom)
        }
    }

    // One cell more at the end.
    pub fn push(&mut self, cell: Cell) -> Result<(), NoRoom>
        ensures answer { result ≡ room_answer (room 1 self.old) }
        ensures cells { self.new ≡ pushed cell self.old }
    {
        self.room_for(1)?;
        self.cells.push(cell);
        Ok(())
    }

    // The first cell, if there is one.
    pub fn first(&self) -> Option<Cell>
        ensures { result ≡ first self.now }
    {
        self.cells.get(0)
    }

    // The first cell leaves, if there is one.
    pub fn take_first(&mut self) -> Option<Cell>
        ensures taken { result ≡ first self.old }
        ensures left { self.new ≡ rest self.old }
    {
        let cell = self.first()?;
        self.cells.drop_first();
        Some(cell)
    }
}
