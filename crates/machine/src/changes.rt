//! What instructions change of the machine.
#![tactic(auto, unfolding(crate::specs::Machine::states, crate::specs::Position::positions, crate::specs::Apply::applying, isa::specs::Decode::word_bytes, isa::specs::Operation::width_by, word::specs::Choice::choices))]

ghost use Rattle.std.specs.Prelude.{◌≡◌, ◌<◌, ◌%◌, ◌^◌, slice_set};
ghost use Rattle.machine.specs.Machine.{LINK, psr, with_conditions};
ghost use Rattle.machine.specs.Stack.{StackShown, store_control};
ghost use Rattle.machine.specs.Apply.{write_register, write_flags, unpacked, words_on, next_pc, advance, advance_holding, jump_to, raise, system_call, user_return, interrupt_return, enable_interrupts, switch_width, select_sets};
ghost use Rattle.machine.specs.Fault.{code_of_exception};
ghost use Rattle.machine.specs.Status.{is_wide};

use crate::control::{EXCEP_ADDR, EXCEPTION_CS, EXCEPTION_PC, EXCEPTION_PSR, SYSTEM_ADDR};
use crate::fault::Exception;
use crate::machine::Machine;
use crate::position::Position;
use crate::registers::{LINK, RegisterSet, SPSR};
use crate::status::Status;
use isa::Width;
use word::Product;

impl Machine {
    // ---- registers

    /// A register of the set that is written takes a value, by the low five bits of its number; a write to PSR is ignored (Manual 1.4).
    pub fn write_register(&mut self, d: u32, x: u32)
        ensures { self.new ≡ write_register d x self.old }
    {
        let set = self.target_set();
        self.write(set, d % 32, x);
    }

    /// A condition register takes flags, each by their low three bits.
    pub fn write_flags(&mut self, c: u32, flags: u32)
        ensures { self.new ≡ write_flags c flags self.old }
    {
        self.set_condition(c % 8, flags % 8);
    }

    /// All condition registers are taken from a word: Cn from bits 3n+2 to 3n (Manual 3.2).
    #[tactic(auto, using(crate::proofs::Unpacked::divided), unfolding(crate::specs::Machine::states, crate::specs::Position::positions, crate::specs::Apply::applying, isa::specs::Decode::word_bytes, isa::specs::Operation::width_by, word::specs::Choice::choices))]
    pub fn unpack_conditions(&mut self, x: u32)
        ensures { self.new ≡ with_conditions (unpacked 8 x) self.old }
    {
        self.conditions = [
            x % 8,
            x / 0x8 % 8,
            x / 0x40 % 8,
            x / 0x200 % 8,
            x / 0x1000 % 8,
            x / 0x8000 % 8,
            x / 0x4_0000 % 8,
            x / 0x20_0000 % 8,
        ];
    }

    // ---- where control goes on

    /// The address so many words after this one.
    pub fn words_on(&self, count: u32) -> u32
        requires { count < 4 }
        ensures { result ≡ words_on count self.now }
    {
        let bytes = match self.width() {
            Width::Narrow => count * 2,
            Width::Wide => count * 4,
        };
        self.pc().wrapping_add(bytes)
    }

    /// Where control goes on: to the target in a slot, else to the word after this one.
    #[tactic(auto, using(crate::proofs::Onward::next_in_slot, crate::proofs::Onward::next_no_slot), unfolding(crate::specs::Machine::states, crate::specs::Position::positions, crate::specs::Apply::applying, isa::specs::Decode::word_bytes, isa::specs::Operation::width_by, word::specs::Choice::choices))]
    pub fn next_pc(&self) -> u32
        ensures { result ≡ next_pc self.now }
    {
        match self.position.slot() {
            Some(target) => target,
            None => self.words_on(1),
        }
    }

    /// Nothing but PC moves; the slot is used up and a product dropped (Manual 4).
    pub fn advance(&mut self)
        ensures { self.new ≡ advance self.old }
    {
        let pc = self.next_pc();
        self.position = Position::at(pc);
    }

    /// The same, with a product held for the next instruction, which may be mulhi (Manual 1.5).
    pub fn advance_holding(&mut self, product: Product)
        ensures { self.new ≡ advance_holding product.high product.low self.old }
    {
        let pc = self.next_pc();
        self.position = Position::holding(pc, product);
    }

    /// A taken jump: the next word is its slot (Manual 4.8).
    pub fn jump(&mut self, target: u32)
        ensures { self.new ≡ jump_to target self.old }
    {
        let pc = self.next_pc();
        self.position = Position::before_slot(pc, target);
    }

    /// The same, with the address after the slot in the link register (Manual 4.8).
    pub fn jump_link(&mut self, target: u32)
        ensures { self.new ≡ jump_to target (write_register LINK (words_on 2 self.old) self.old) }
    {
        let after_slot = self.words_on(2);
        self.write_register(LINK as u32, after_slot);
        self.jump(target);
    }

    // ---- results

    /// A register takes a value. Where control goes on does not depend on it: a write to PSR is ignored (Manual 1.4).
    #[tactic(auto, using(crate::proofs::Onward::next_written), unfolding(crate::specs::Machine::states, crate::specs::Position::positions, crate::specs::Apply::applying, isa::specs::Decode::word_bytes, isa::specs::Operation::width_by, word::specs::Choice::choices))]
    pub fn set_result(&mut self, d: u32, x: u32)
        ensures { self.new ≡ advance (write_register d x self.old) }
    {
        let pc = self.next_pc();
        self.write_register(d, x);
        self.position = Position::at(pc);
    }

    /// A register takes a value, and C0 flags.
    #[tactic(auto, using(crate::proofs::Onward::next_written, crate::proofs::Onward::next_flags), unfolding(crate::specs::Machine::states, crate::specs::Position::positions, crate::specs::Apply::applying, isa::specs::Decode::word_bytes, isa::specs::Operation::width_by, word::specs::Choice::choices))]
    pub fn set_result_flags(&mut self, d: u32, x: u32, flags: u32)
        ensures { self.new ≡ advance (write_flags 0 flags (write_register d x self.old)) }
    {
        let pc = self.next_pc();
        self.write_register(d, x);
        self.write_flags(0, flags);
        self.position = Position::at(pc);
    }

    /// A register takes the low half of a product, which is held for the next step (Manual 1.5).
    #[tactic(auto, using(crate::proofs::Onward::held_written))]
    pub fn set_product(&mut self, d: u32, product: Product)
        ensures { self.new ≡ advance_holding product.high product.low (write_register d product.low self.old) }
    {
        self.advance_holding(product);
        self.write_register(d, product.low);
    }

    /// A condition register takes flags.
    pub fn set_comparison(&mut self, c: u32, flags: u32)
        ensures { self.new ≡ advance (write_flags c flags self.old) }
    {
        self.write_flags(c, flags);
        self.advance();
    }

    /// All condition registers are taken from a word: rcon (Manual 3.2).
    pub fn set_conditions(&mut self, x: u32)
        ensures { self.new ≡ advance (with_conditions (unpacked 8 x) self.old) }
    {
        self.unpack_conditions(x);
        self.advance();
    }

    // ---- stores

    /// A register of the control block is stored to (Manual 5.2 and 5.3).
    pub fn store_to_control(&mut self, offset: u32, x: u32)
        requires { StackShown self.old }
        ensures { self.new ≡ advance (store_control offset x self.old) }
    {
        self.store_control(offset, x);
        self.advance();
    }

    // ---- changes of mode

    /// An exception by a code, of which EXCEPTION_CS takes the low eight bits; the address and PSR are shown, and PC is EXCEP_ADDR (Manual 4.9).
    pub fn raise_code(&mut self, code: u32)
        ensures { self.new ≡ raise code self.old }
    {
        let address = self.pc();
        let psr = self.psr();
        self.control[EXCEPTION_CS] = code % 256;
        self.control[EXCEPTION_PC] = address;
        self.control[EXCEPTION_PSR] = psr;
        self.set_status(Status::super_user());
        self.position = Position::at(self.control[EXCEP_ADDR]);
    }

    /// An exception: its code, the address and PSR are shown; PC is EXCEP_ADDR (Manual 4.9). It is written out: by a call of `raise_code` every step would
    /// take three instructions more.
    #[tactic(auto, using(crate::proofs::Codes::code_byte), unfolding(crate::specs::Machine::states, crate::specs::Position::positions, crate::specs::Apply::applying, isa::specs::Decode::word_bytes, isa::specs::Operation::width_by, word::specs::Choice::choices))]
    pub fn raise(&mut self, exception: Exception)
        ensures { self.new ≡ raise (code_of_exception exception) self.old }
    {
        let handler = self.control[EXCEP_ADDR];
        self.control[EXCEPTION_CS] = exception.code();
        self.control[EXCEPTION_PC] = self.pc();
        self.control[EXCEPTION_PSR] = self.psr();
        self.set_status(Status::super_user());
        self.position = Position::at(handler);
    }

    /// scall: the link of set 2 is two words on, SPSR takes PSR; PC is SYSTEM_ADDR (Manual 3.2).
    pub fn call_system(&mut self)
        ensures { self.new ≡ system_call self.old }
    {
        let link = self.words_on(2);
        let psr = self.psr();
        self.set_register(RegisterSet::Second, SPSR as u32, psr);
        self.set_register(RegisterSet::Second, LINK as u32, link);
        self.set_status(Status::super_user());
        self.position = Position::at(self.control[SYSTEM_ADDR]);
    }

    /// retu: PC from the link of set 2; IE and IL from SPSR; user mode, set 1 (Manual 3.2).
    #[tactic(auto, using(crate::proofs::Statuses::wide_named), unfolding(crate::specs::Machine::states, crate::specs::Position::positions, crate::specs::Apply::applying, isa::specs::Decode::word_bytes, isa::specs::Operation::width_by, word::specs::Choice::choices))]
    pub fn return_to_user(&mut self)
        ensures { self.new ≡ user_return self.old }
    {
        let pc = self.set2[LINK];
        let saved = Status::from(self.set2[SPSR]);
        self.set_status(Status::user(saved.width, saved.enabled));
        self.position = Position::at(pc);
    }

    /// reti: PC, PSR and C0 come back from the stack's top, which leaves it (Manual 6.2).
    #[tactic(auto, unfolding(crate::specs::Stack::with_stack, crate::specs::Stack::show_stack, crate::specs::Machine::states, crate::specs::Apply::applying))]
    pub fn return_from_interrupt(&mut self)
        requires { StackShown self.old }
        ensures { self.new ≡ interrupt_return self.old }
    {
        let entry = self.stack.shown_top();
        self.pop();
        self.set_condition(0, entry.c0);
        self.set_psr(entry.psr);
        self.position = Position::at(entry.address);
    }

    /// di and ei: IE becomes 0 or 1 (Manual 3.2).
    #[tactic(auto, using(crate::proofs::Statuses::wide_named), unfolding(crate::specs::Machine::states, crate::specs::Position::positions, crate::specs::Apply::applying, isa::specs::Decode::word_bytes, isa::specs::Operation::width_by, word::specs::Choice::choices))]
    pub fn enable_interrupts(&mut self, enabled: bool)
        ensures { self.new ≡ enable_interrupts enabled self.old }
    {
        let mut status = self.status();
        status.enabled = enabled;
        self.advance();
        self.set_status(status);
    }

    /// swm: IL becomes 0 or 1; PC goes three words of the old length on (Manual 3.2).
    pub fn switch_width(&mut self, width: Width)
        ensures { self.new ≡ switch_width (is_wide width) self.old }
    {
        let mut status = self.status();
        status.width = width;
        let pc = self.words_on(3);
        self.position = Position::at(pc);
        self.set_status(status);
    }

    /// chrs: RSRD becomes bit 0, RSWR bit 1 (Manual 3.2).
    #[tactic(auto, using(crate::proofs::Statuses::wide_named), unfolding(crate::specs::Machine::states, crate::specs::Position::positions, crate::specs::Apply::applying, isa::specs::Decode::word_bytes, isa::specs::Operation::width_by, word::specs::Choice::choices))]
    pub fn select_sets(&mut self, sets: u32)
        ensures { self.new ≡ select_sets sets self.old }
    {
        let mut status = self.status();
        status.reads_set2 = sets % 2 == 1;
        status.writes_set2 = sets / 2 % 2 == 1;
        self.advance();
        self.set_status(status);
    }
}
