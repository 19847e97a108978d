//! Interrupts in service (Manual 5.3 and 6): the stack, the control registers that show it, and stores to the control block.
#![tactic(auto, unfolding(crate::specs::Stack::with_stack, crate::specs::Stack::show_stack, crate::specs::Machine::states, word::specs::Choice::choices))]

ghost use Rattle.std.specs.Prelude.{◌≡◌, ◌∷◌, ◌<◌, true, length};
ghost use Rattle.word.specs.Flags.{distinct_below};
ghost use Rattle.machine.specs.Machine.{with_control};
ghost use Rattle.machine.specs.Control.{control_at, INT_SERV};
ghost use Rattle.machine.specs.Stack.{popped, sources_of, service_flags, shown_top, show_top, with_stack, StackShown, top_stored, store_control};
ghost use Rattle.machine.specs.Top.{top_of, SourceFits, flags_left};
ghost use Rattle.machine.specs.Words.{SOURCES};

use crate::control::{
    INT_SERV, RETI_ADDR, RETI_CR0, RETI_PSR, is_writable, kept, replaces_top, return_stored,
};
use crate::machine::Machine;
use crate::stack::Entry;

/// Flags in service without the one of an entry that leaves the stack, if one does.
fn flags_left(flags: u32, top: Option<Entry>) -> u32
    requires { SourceFits top }
    ensures { result ≡ flags_left flags top }
{
    match top {
        Some(entry) => word::without_flag(flags, entry.source),
        None => flags,
    }
}

impl Machine {
    /// The control block shows the stack: INT_SERV takes the flags of its sources, and the RETI_ registers show its top.
    fn show(&mut self, flags: u32)
        requires { flags ≡ service_flags self.old.stack }
        ensures { self.new ≡ with_stack self.old.stack self.old }
    {
        let top = self.shown_top();
        self.control[INT_SERV] = flags;
        self.control[RETI_ADDR] = top.address;
        self.control[RETI_PSR] = top.psr;
        self.control[RETI_CR0] = top.c0;
    }

    /// An entry goes on the stack, and the control block shows it.
    #[tactic(auto, using(crate::proofs::Pushed::push_room, crate::proofs::Pushed::push_source, crate::proofs::Pushed::push_shown), unfolding(crate::specs::Stack::with_stack, crate::specs::Stack::show_stack, crate::specs::Machine::states, word::specs::Choice::choices))]
    pub fn push(&mut self, entry: Entry)
        requires flags { control_at self.old INT_SERV ≡ service_flags self.old.stack }
        requires sources { distinct_below SOURCES (sources_of (entry ∷ self.old.stack)) ≡ true }
        ensures { self.new ≡ with_stack (entry ∷ self.old.stack) self.old }
    {
        let flags = word::with_flag(self.control(INT_SERV), entry.source);
        self.stack.push(entry);
        self.show(flags);
    }

    /// The top leaves the stack, if there is one, and the control block shows the rest.
    #[tactic(auto, using(crate::proofs::Pushed::pop_source, crate::proofs::Pushed::pop_shown), unfolding(crate::specs::Stack::with_stack, crate::specs::Stack::show_stack, crate::specs::Machine::states, word::specs::Choice::choices))]
    pub fn pop(&mut self) -> Option<Entry>
        requires flags { control_at self.old INT_SERV ≡ service_flags self.old.stack }
        requires sources { distinct_below SOURCES (sources_of self.old.stack) ≡ true }
        ensures top { result ≡ top_of self.old.stack }
        ensures rest { self.new ≡ with_stack (popped self.old.stack) self.old }
    {
        let served = self.control(INT_SERV);
        let top = self.stack.pop();
        let flags = flags_left(served, top);
        self.show(flags);
        top
    }

    /// A store to a register that shows a part of the stack's top replaces that part; with an empty stack it is ignored (Manual 5.3).
    #[tactic(auto, using(crate::proofs::Pushed::stored_flags, crate::proofs::Pushed::stored_some, crate::proofs::Pushed::stored_none, crate::proofs::Pushed::top_some), unfolding(crate::specs::Stack::with_stack, crate::specs::Stack::show_stack, crate::specs::Machine::states, word::specs::Choice::choices))]
    fn store_top(&mut self, offset: usize, x: u32)
        requires { StackShown self.old }
        ensures { self.new ≡ top_stored offset x self.old.stack self.old }
    {
        match self.stack.top() {
            Some(entry) => {
                let stored = return_stored(entry, offset, x);
                let flags = self.control(INT_SERV);
                self.stack.replace_top(stored);
                self.show(flags);
            }
            None => {}
        }
    }

    /// A store to the control block at an offset: a writable register keeps its bits of the number, one that shows the stack's top
    /// replaces that part of it, and all others ignore it (Manual 5.2 and 5.3).
    #[tactic(auto, using(crate::proofs::Widths::writable_small, crate::proofs::Widths::stored_writable, crate::proofs::Widths::stored_top, crate::proofs::Widths::stored_ignored), unfolding(crate::specs::Stack::with_stack, crate::specs::Stack::show_stack, crate::specs::Machine::states, word::specs::Choice::choices))]
    pub fn store_control(&mut self, offset: u32, x: u32)
        requires { StackShown self.old }
        ensures { self.new ≡ store_control offset x self.old }
    {
        let offset = offset as usize;
        if is_writable(offset) {
            self.control[offset] = kept(offset, x);
        } else if replaces_top(offset) {
            self.store_top(offset, x);
        }
    }
}
