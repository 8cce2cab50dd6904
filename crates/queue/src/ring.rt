// A queue of at most `N` items in the value itself: its slots are used as a circle, so that no item moves.
ghost use Rattle.std.specs.Prelude.{◌≡◌, ◌<◌, ◌≤◌, [], ◌∷◌, ◌++◌, length, drop, slice_get};
ghost use Rattle.queue.specs.Circle.{place};

use std::marker::Model;

// The slots stand in the value with their number beside them, since a port has no heap to keep a Vec on. (The kit's `ArrayVec` has
// no heap either; it would want a default cell, which nobody sent, and move each cell where the first leaves.)
#[derive(Drop)]
pub(crate) struct Ring<T: Copy, const N: usize> {
    slots: [T; N],
    // how many slots lie before the first item
    before: usize,
    len: usize,
}

// Clauses see the items, the first to leave first.
impl<T: Copy, const N: usize> Model for Ring<T, N> {
    ghost use Rattle.std.specs.Prelude.{◌≤◌, List};
    ghost use Rattle.queue.specs.Circle.{window};

    ghost Value = { List T };

    ghost view = { λ r. window r.before r.len r.slots };

    ghost invariant = { λ r. (r.before ≤ N) × (r.len ≤ N) };
}

// The slot of the item that so many others go before: so many slots further on, where the first follows the last. It is
// found by a comparison, since the sum may be more than a `usize` holds.
fn place(slots: usize, before: usize, others: usize) -> usize
    requires start { before ≤ slots }
    requires item { others < slots }
    ensures is { result ≡ place slots before others }
    ensures within { result < slots }
{
    let after = slots - before;
    if others < after {
        before + others
    } else {
        others - after
    }
}

impl<T: Copy, const N: usize> Ring<T, N> {
    // An empty one. What its slots are filled with is never given out.
    pub(crate) fn new(filling: T) -> Self
        ensures { result ≡ [] }
    {
        Ring {
            slots: [filling; N],
            before: 0,
            len: 0,
        }
    }

    pub(crate) fn len(&self) -> usize
        ensures is { result ≡ length self.now }
        ensures bounded { result ≤ N }
    {
        self.len
    }

    // One item more at the end.
    #[tactic(auto, using(crate::proofs::Circle::length_window, crate::proofs::Circle::window_after_push))]
    pub(crate) fn push(&mut self, item: T)
        requires { length self.old < N }
        ensures { self.new ≡ self.old ++ item ∷ [] }
    {
        let last = place(N, self.before, self.len);
        self.slots[last] = item;
        self.len += 1;
    }

    // The item that so many others go before, if there is one.
    #[tactic(auto, using(crate::proofs::Circle::got_window, crate::proofs::Circle::got_beyond))]
    pub(crate) fn get(&self, others: usize) -> Option<T>
        ensures { result ≡ slice_get self.now others }
    {
        if others < self.len {
            Some(self.slots[place(N, self.before, others)])
        } else {
            None
        }
    }

    // The first item leaves.
    #[tactic(auto, using(crate::proofs::Circle::length_window, crate::proofs::Circle::window_after_drop))]
    pub(crate) fn drop_first(&mut self)
        requires { 0 < length self.old }
        ensures { self.new ≡ drop 1 self.old }
    {
        self.before = place(N, self.before, 0) + 1;
        self.len -= 1;
    }
}
