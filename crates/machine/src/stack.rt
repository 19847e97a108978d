//! The stack of interrupts in service.
#![tactic(auto, unfolding(crate::specs::Stack::stacks))]

ghost use Rattle.std.specs.Prelude.{◌≡◌, ⊤, ◌<◌, ◌≤◌, ◌∷◌, [], length, reverse, take};
ghost use Rattle.machine.specs.Words.{SOURCES};
ghost use Rattle.machine.specs.Stack.{popped, shown_top};
ghost use Rattle.machine.specs.Top.{top_of};

use std::alloc::AllocError;
use std::marker::Model;

/// The interrupt sources; the stack has at most one entry of each (Manual 6.1).
pub const SOURCES: usize = 12;

/// An entry of the interrupt stack: what an accepted interrupt keeps of the routine that it interrupts (Manual 6.1).
#[derive(Clone, Copy, Debug, PartialEq, Eq)]
pub struct Entry {
    pub source: u32,
    pub address: u32,
    pub psr: u32,
    pub c0: u32,
}

impl Entry {
    /// What the RETI_ registers show of an empty stack (Manual 5.3).
    pub fn none() -> Self
        ensures { result ≡ shown_top [] }
    {
        Entry {
            source: 0,
            address: 1,
            psr: 9,
            c0: 0,
        }
    }
}

/// The interrupt stack (Manual 6.1): twelve places, of which so many as the depth are used, and all where it is more.
#[derive(Drop)]
pub struct Stack {
    entries: [Entry; SOURCES],
    depth: usize,
}

// Clauses see the entries that are used, top first. The invariant holds of every value.
impl Model for Stack {
    ghost use Rattle.std.specs.Prelude.{◌≡◌, List, length, take, reverse};
    ghost use Rattle.machine.specs.declared.stack.Entry.{Entry};

    ghost Value = { List Entry };

    ghost view = { λ s. reverse (take s.depth s.entries) };

    ghost invariant = { λ s. length s.entries ≡ 12 };
}

impl Clone for Stack {
    ghost is_clone = { λ stack other. other ≡ stack };

    ghost is_infallible = { λ _. ⊤ };

    /// An equal stack.
    fn clone(&self) -> Result<Self, AllocError> {
        Ok(Stack {
            entries: self.entries,
            depth: self.depth,
        })
    }
}

impl Stack {
    /// The empty stack.
    pub fn new() -> Self
        ensures { result ≡ [] }
    {
        Stack {
            entries: [Entry::none(); SOURCES],
            depth: 0,
        }
    }

    /// The stack of the first entries of twelve, so many as a depth, the top last; of all where it is more.
    pub fn of(entries: [Entry; SOURCES], depth: usize) -> Self
        ensures { result ≡ reverse (take depth entries) }
    {
        Stack { entries, depth }
    }

    /// How many entries are on the stack.
    pub fn len(&self) -> usize
        ensures entries { result ≡ length self.now }
        ensures within { result ≤ SOURCES }
    {
        self.depth.min(SOURCES)
    }

    /// The entries, the top last.
    pub fn entries(&self) -> &[Entry]
        ensures { reverse result.now ≡ self.now }
    {
        let depth = self.len();
        &self.entries[..depth]
    }

    /// The entry that was put on the stack last.
    pub fn top(&self) -> Option<Entry>
        ensures { result ≡ top_of self.now }
    {
        let depth = self.len();
        if depth == 0 {
            None
        } else {
            Some(self.entries[depth - 1])
        }
    }

    /// What the RETI_ registers show: the top, or 1, 9 and 0 when the stack is empty (Manual 5.3).
    #[tactic(auto, using(crate::proofs::Entries::shown_some, crate::proofs::Entries::shown_none))]
    pub fn shown_top(&self) -> Entry
        ensures { result ≡ shown_top self.now }
    {
        match self.top() {
            Some(entry) => entry,
            None => Entry::none(),
        }
    }

    /// An entry goes on the stack.
    pub fn push(&mut self, entry: Entry)
        requires { length self.old < SOURCES }
        ensures { self.new ≡ entry ∷ self.old }
    {
        self.entries[self.depth] = entry;
        self.depth += 1;
    }

    /// The top leaves the stack.
    #[tactic(auto, using(crate::proofs::Entries::room_left), unfolding(crate::specs::Stack::stacks))]
    pub fn pop(&mut self) -> Option<Entry>
        ensures top { result ≡ top_of self.old }
        ensures rest { self.new ≡ popped self.old }
        ensures room { length self.new < SOURCES }
    {
        let depth = self.len();
        if depth == 0 {
            return None;
        }
        self.depth = depth - 1;
        Some(self.entries[depth - 1])
    }

    /// An entry takes the place of the top.
    pub fn replace_top(&mut self, entry: Entry)
        requires { 0 < length self.old }
        ensures { self.new ≡ entry ∷ popped self.old }
    {
        self.pop();
        self.push(entry);
    }
}
