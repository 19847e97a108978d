//! Addresses in the order in which they were found, in fixed memory.
#![tactic(auto)]

ghost use Rattle.std.specs.Prelude.{◌≡◌, ◌<◌, [], ◌∷◌, ◌++◌, length, get_or};

use std::marker::Model;

// Room for every address of a program, and more than the three to which one word leads; fixed, since the library allocates nothing.
const ROOM: usize = 65_540;

/// Addresses of a program, below 65,536, at most 65,540 of them: seen as their list, the first one first.
#[derive(Drop)]
pub struct Queue {
    items: [u16; ROOM],
    len: usize,
}

impl Model for Queue {
    ghost use Rattle.std.specs.Prelude.{◌≡◌, ◌≤◌, ℕ, List, length, take};

    ghost Value = { List ℕ };

    ghost view = { λ q. take q.len q.items };

    ghost invariant = { λ q. (length q.items ≡ 65540) × (q.len ≤ 65540) };
}

impl Queue {
    /// A queue of none.
    pub fn new() -> Self
        ensures { result ≡ [] }
    {
        Queue {
            items: [0; ROOM],
            len: 0,
        }
    }

    /// How many there are.
    pub fn len(&self) -> usize
        ensures { result ≡ length self.now }
    {
        self.len
    }

    /// The one of a number below that.
    pub fn at(&self, k: usize) -> u16
        requires { k < length self.now }
        ensures { result ≡ get_or self.now k 0 }
    {
        self.items[..self.len][k]
    }

    /// Puts one at the end.
    pub fn push(&mut self, at: u16)
        requires { length self.old < 65540 }
        ensures { self.new ≡ self.old ++ at ∷ [] }
    {
        self.items[self.len] = at;
        self.len += 1;
    }
}
