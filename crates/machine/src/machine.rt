//! The machine, and its parts one by one.
#![tactic(auto, unfolding(crate::specs::Machine::states, isa::specs::Operation::width_by, word::specs::Choice::choices))]

ghost use Rattle.std.specs.Prelude.{◌≡◌, ⊤, ◌<◌, [], ◌∷◌, length, get_or, set};
ghost use Rattle.machine.specs.Words.{REGISTERS, FLAGS, OFFSETS, TIMERS};

use crate::control::{DMEM_BOUND_HI, DMEM_BOUND_LO, OFFSETS, RESET, is_within};
use crate::position::Position;
use crate::registers::{FLAGS, PSR, REGISTERS, RegisterSet, SPSR};
use crate::stack::{Entry, Stack};
use crate::status::Status;
use isa::Width;
use std::alloc::AllocError;
use std::marker::Model;

/// Bytes of the longest program, and cells of the largest data memory (Manual 1.1 and 1.2).
pub const MOST_MEMORY: usize = 65_536;

/// The timers, each with a divider (Manual 7.1).
pub const TIMERS: usize = 2;

/// The machine (Manual 1): plain numbers, of which any may be anything. Register set 2 holds the program status register.
#[derive(Drop)]
pub struct Machine {
    pub(crate) set1: [u32; REGISTERS],
    pub(crate) set2: [u32; REGISTERS],
    pub(crate) conditions: [u32; FLAGS],
    pub(crate) control: [u32; OFFSETS],
    pub(crate) position: Position,
    pub(crate) stack: Stack,
    pub(crate) dividers: [u32; TIMERS],
}

// The invariant holds of every value: it says how long the arrays are.
impl Model for Machine {
    ghost use Rattle.std.specs.Prelude.{◌≡◌, length};
    ghost use Rattle.machine.specs.Machine.{Machine as State};

    ghost Value = { State };

    ghost view = { λ m. record { set1 = m.set1; set2 = m.set2; conditions = m.conditions; control = m.control; position = m.position; stack = m.stack; dividers = m.dividers } };

    ghost invariant = { λ m. (length m.set1 ≡ 32) × (length m.set2 ≡ 32) × (length m.conditions ≡ 8) × (length m.control ≡ 45) × (length m.dividers ≡ 2) };
}

impl Clone for Machine {
    ghost is_clone = { λ machine other. other ≡ machine };

    ghost is_infallible = { λ _. ⊤ };

    /// An equal machine.
    fn clone(&self) -> Result<Self, AllocError> {
        Ok(Machine {
            set1: self.set1,
            set2: self.set2,
            conditions: self.conditions,
            control: self.control,
            position: self.position,
            stack: self.stack.clone()?,
            dividers: self.dividers,
        })
    }
}

impl Machine {
    ghost use Rattle.machine.specs.Machine.{psr, user_mode, reads_set2, writes_set2, width_of, interrupts_enabled, set_by, with_register, written, with_psr, with_conditions, with_control, with_position, with_dividers};
    ghost use Rattle.machine.specs.Control.{control_at, protected_cell, reset as resetOf};
    ghost use Rattle.machine.specs.RegisterSet.{is_second, set_named};
    ghost use Rattle.machine.specs.Status.{status_in, psr_of};
    ghost use Rattle.machine.specs.Top.{top_of};
    ghost use Rattle.machine.specs.Stack.{shown_top};

    // ---- the status

    /// The program status register.
    pub fn psr(&self) -> u32
        ensures { result ≡ psr self.now }
    {
        self.set2[PSR]
    }

    /// What it says.
    pub fn status(&self) -> Status
        ensures { result ≡ status_in (psr self.now) }
    {
        Status::from(self.psr())
    }

    /// Whether the mode is user mode.
    pub fn is_user(&self) -> bool
        ensures { result ≡ user_mode (psr self.now) }
    {
        self.status().user
    }

    /// The length of instruction words.
    pub fn width(&self) -> Width
        ensures { result ≡ width_of (psr self.now) }
    {
        self.status().width
    }

    /// Whether interrupts are enabled.
    pub fn is_enabled(&self) -> bool
        ensures { result ≡ interrupts_enabled (psr self.now) }
    {
        self.status().enabled
    }

    /// The register set that is read from.
    pub fn source_set(&self) -> RegisterSet
        ensures { result ≡ set_named (reads_set2 (psr self.now)) }
    {
        RegisterSet::from(self.status().reads_set2)
    }

    /// The register set that is written.
    pub fn target_set(&self) -> RegisterSet
        ensures { result ≡ set_named (writes_set2 (psr self.now)) }
    {
        RegisterSet::from(self.status().writes_set2)
    }

    /// The program status register takes a number.
    pub fn set_psr(&mut self, psr: u32)
        ensures { self.new ≡ with_psr psr self.old }
    {
        self.set2[PSR] = psr;
    }

    /// The program status register takes a status.
    pub fn set_status(&mut self, status: Status)
        ensures { self.new ≡ with_psr (psr_of status) self.old }
    {
        self.set_psr(u32::from(status));
    }

    // ---- registers

    /// A register of a set.
    pub fn register(&self, set: RegisterSet, n: u32) -> u32
        requires { n < REGISTERS }
        ensures { result ≡ get_or (set_by (is_second set) self.now) n 0 }
    {
        match set {
            RegisterSet::First => self.set1[n as usize],
            RegisterSet::Second => self.set2[n as usize],
        }
    }

    /// A register of the set that is read from.
    pub fn source(&self, n: u32) -> u32
        requires { n < REGISTERS }
        ensures { result ≡ get_or (set_by (reads_set2 (psr self.now)) self.now) n 0 }
    {
        self.register(self.source_set(), n)
    }

    /// A register of the set that is written.
    pub fn target(&self, n: u32) -> u32
        requires { n < REGISTERS }
        ensures { result ≡ get_or (set_by (writes_set2 (psr self.now)) self.now) n 0 }
    {
        self.register(self.target_set(), n)
    }

    /// A register of a set takes a value.
    pub fn set_register(&mut self, set: RegisterSet, n: u32, x: u32)
        requires { n < REGISTERS }
        ensures { self.new ≡ with_register (is_second set) n x self.old }
    {
        match set {
            RegisterSet::First => self.set1[n as usize] = x,
            RegisterSet::Second => self.set2[n as usize] = x,
        }
    }

    /// A register of a set takes a value; a write to PSR is ignored (Manual 1.4).
    pub fn write(&mut self, set: RegisterSet, n: u32, x: u32)
        requires { n < REGISTERS }
        ensures { self.new ≡ written (is_second set) n x self.old }
    {
        match set {
            RegisterSet::First => self.set1[n as usize] = x,
            RegisterSet::Second => {
                if n as usize != PSR {
                    self.set2[n as usize] = x;
                }
            }
        }
    }

    // ---- condition registers

    /// The condition registers, C0 first.
    pub fn conditions(&self) -> &[u32; FLAGS]
        ensures all { result.now ≡ self.now.conditions }
        ensures count { length result.now ≡ FLAGS }
    {
        &self.conditions
    }

    /// A condition register.
    pub fn condition(&self, n: u32) -> u32
        requires { n < FLAGS }
        ensures { result ≡ get_or self.now.conditions n 0 }
    {
        self.conditions[n as usize]
    }

    /// A condition register takes a number.
    pub fn set_condition(&mut self, n: u32, x: u32)
        requires { n < FLAGS }
        ensures { self.new ≡ with_conditions (set self.old.conditions n x) self.old }
    {
        self.conditions[n as usize] = x;
    }

    // ---- the control block

    /// The control register at an offset.
    pub fn control(&self, offset: usize) -> u32
        requires { offset < OFFSETS }
        ensures { result ≡ control_at self.now offset }
    {
        self.control[offset]
    }

    /// What a load of the control block gives at an offset; 0 beyond its registers (Manual 5.2).
    pub fn loaded_control(&self, offset: u32) -> u32
        ensures { result ≡ control_at self.now offset }
    {
        self.control.get(offset as usize).copied().unwrap_or(0)
    }

    /// The control register at an offset takes a number.
    pub fn set_control(&mut self, offset: usize, x: u32)
        requires { offset < OFFSETS }
        ensures { self.new ≡ with_control (set self.old.control offset x) self.old }
    {
        self.control[offset] = x;
    }

    /// Whether a data address is protected (Manual 1.3).
    pub fn protects_cell(&self, address: u32) -> bool
        ensures { result ≡ protected_cell self.now address }
    {
        is_within(
            self.control[DMEM_BOUND_LO],
            self.control[DMEM_BOUND_HI],
            address,
        )
    }

    // ---- the position

    /// Where the program is.
    pub fn position(&self) -> Position
        ensures { result ≡ self.now.position }
    {
        self.position
    }

    /// The program counter.
    pub fn pc(&self) -> u32
        ensures { result ≡ self.now.position.pc }
    {
        self.position.pc()
    }

    /// The position takes another.
    pub fn set_position(&mut self, position: Position)
        ensures { self.new ≡ with_position position self.old }
    {
        self.position = position;
    }

    // ---- the hardware stack

    /// How many interrupts are in service.
    pub fn depth(&self) -> usize
        ensures { result ≡ length self.now.stack }
    {
        self.stack.len()
    }

    /// The interrupt that was accepted last, of those in service.
    pub fn top(&self) -> Option<Entry>
        ensures { result ≡ top_of self.now.stack }
    {
        self.stack.top()
    }

    /// What the RETI_ registers show of the stack: its top, or 1, 9 and 0 when it is empty (Manual 5.3).
    pub fn shown_top(&self) -> Entry
        ensures { result ≡ shown_top self.now.stack }
    {
        self.stack.shown_top()
    }

    // ---- dividers

    /// The divider of a timer.
    pub fn divider(&self, k: u32) -> u32
        requires { k < TIMERS }
        ensures { result ≡ get_or self.now.dividers k 0 }
    {
        self.dividers[k as usize]
    }

    /// The divider of a timer takes a number.
    pub fn set_divider(&mut self, k: u32, x: u32)
        requires { k < TIMERS }
        ensures { self.new ≡ with_dividers (set self.old.dividers k x) self.old }
    {
        self.dividers[k as usize] = x;
    }

    /// The dividers of both timers take numbers.
    pub fn set_dividers(&mut self, first: u32, second: u32)
        ensures { self.new ≡ with_dividers (first ∷ second ∷ []) self.old }
    {
        self.dividers = [first, second];
    }

    // ---- reset

    /// The machine at reset (Manual 4.12).
    #[tactic(auto, unfolding(crate::specs::Control::controls, crate::specs::Machine::states))]
    pub fn reset() -> Self
        ensures { result ≡ resetOf }
    {
        let mut set2 = [0; REGISTERS];
        set2[PSR] = 0x0E;
        set2[SPSR] = 9;
        Machine {
            set1: [0; REGISTERS],
            set2,
            conditions: [0; FLAGS],
            control: RESET,
            position: Position::at(0),
            stack: Stack::new(),
            dividers: [0; TIMERS],
        }
    }
}
