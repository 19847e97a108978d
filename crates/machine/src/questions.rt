//! What makes a machine well formed: questions 3 to 5 (Manual 8 and 9.2), whether its numbers fit, its modes, and its interrupt stack.
#![tactic(auto)]

ghost use Rattle.std.specs.Prelude.{◌≡◌, ◌≤◌, ◌<◌, ◌^◌, true, eqb, length, reverse};
ghost use Rattle.machine.specs.Control.{register_at, can_hold};
ghost use Rattle.machine.specs.Words.{OFFSETS};
ghost use Rattle.machine.specs.Questions.{all, implies, all_below, all_held, position_tests, sets_fit, question3, question4, question5, read_by, ask_machine};
ghost use Rattle.machine.specs.Refusal.{refused_by};
ghost use Rattle.machine.specs.Stack.{service_flags};
ghost use Rattle.machine.specs.EntryTests.{ranges_fit, mode_fits, source_fits};
ghost use Rattle.std.specs.List.{list_all};

use crate::control::{INT_SERV, RETI_ADDR, RETI_CR0, RETI_PSR, limit};
use crate::machine::Machine;
use crate::position::Position;
use crate::refusal::Refusal;
use crate::stack::Entry;

// ---- whether numbers fit

/// Whether every number is below a bound.
pub fn all_below(numbers: &[u32], top: u32) -> bool
    ensures { result ≡ all_below top numbers.now }
{
    numbers.iter().all(|&x| x < top)
}

/// Whether a number is 0 where its flag is.
#[tactic(auto, unfolding(crate::specs::Questions::implies))]
fn idle(flag: u32, x: u32) -> bool
    ensures { result ≡ implies (eqb flag 0) (eqb x 0) }
{
    flag != 0 || x == 0
}

/// Whether a position's flags are 0 or 1, and the numbers of a 0 flag 0.
#[tactic(auto, using(crate::proofs::Asked::position_words))]
fn position_fits(p: Position) -> bool
    ensures { result ≡ all (position_tests p) }
{
    let slot = (p.slot < 2) & idle(p.slot, p.target);
    let product = (p.held < 2) & idle(p.held, p.high) & idle(p.held, p.low);
    slot & product
}

/// Whether the control register at an offset can hold a number.
#[tactic(auto, using(crate::proofs::Asked::held_base, crate::proofs::Asked::held_status, crate::proofs::Asked::held_version, crate::proofs::Asked::held_others))]
fn can_hold(offset: usize, x: u32) -> bool
    requires { offset < OFFSETS }
    ensures { result ≡ can_hold (register_at offset) x }
{
    match offset {
        0x00 => x % 256 == 0, // CCB_BASE
        0x2B => x == 0, // FPU_STATUS
        0x2C => x == 1, // CORE_VER_ID
        _ => x <= limit(offset),
    }
}

/// Whether every control register can hold its number.
fn all_held(registers: &[u32]) -> bool
    requires { length registers.now ≤ OFFSETS }
    ensures { result ≡ all_held 0 registers.now }
{
    registers.iter().enumerate().all(|(i, &x)| can_hold(i, x))
}

// ---- whether modes fit

/// Whether a status with UM 1 has both set bits 0.
#[tactic(auto, unfolding(crate::specs::Questions::questions))]
fn sets_fit(psr: u32) -> bool
    ensures { result ≡ sets_fit psr }
{
    psr % 2 != 1 || psr % 8 == 1
}

// ---- what the types say

/// Numbers are words. It does nothing, and says it.
#[tactic(auto, using(crate::proofs::Tests::all_words))]
fn are_words(numbers: &[u32])
    ensures { all_below (2 ^ 32) numbers.now ≡ true }
{}

// ---- stack entries

/// Whether an entry's status and flags have no more bits than they may.
#[tactic(auto, using(crate::proofs::Asked::entry_words))]
fn is_in_range(entry: Entry) -> bool
    ensures { result ≡ ranges_fit entry }
{
    (entry.psr < 32) & (entry.c0 < 8)
}

/// Whether every entry's status and flags have no more bits than they may.
fn ranges_fit(entries: &[Entry]) -> bool
    ensures { result ≡ list_all ranges_fit entries.now }
{
    entries.iter().all(|e| is_in_range(*e))
}

/// Whether every entry's source is below 12.
fn sources_fit(entries: &[Entry]) -> bool
    ensures { result ≡ list_all source_fits entries.now }
{
    entries.iter().all(|e| e.source < 12)
}

/// Whether every entry's status with UM 1 has both set bits 0.
fn modes_fit(entries: &[Entry]) -> bool
    ensures { result ≡ list_all mode_fits entries.now }
{
    entries.iter().all(|e| sets_fit(e.psr))
}

/// The flags of the sources of entries.
#[tactic(auto, using(crate::proofs::Flagged::flags_more), unfolding(crate::specs::Stack::service_flags, crate::specs::Stack::sources_of, word::specs::Flags::flags_at))]
fn service_flags(entries: &[Entry]) -> u32
    requires { list_all source_fits entries.now ≡ true }
    ensures { result ≡ service_flags (reverse entries.now) }
{
    let mut flags = 0;
    for entry in entries {
        flags = word::with_flag(flags, entry.source);
    }
    flags
}

impl Machine {
    /// Question 3: whether every number is one that its register can hold (Manual 8.1 and 8.2).
    fn numbers_fit(&self) -> bool
        ensures { result ≡ question3 self.now }
    {
        are_words(&self.set1);
        are_words(&self.set2);
        let status = self.psr() < 32;
        let conditions = all_below(&self.conditions, 8);
        let control = all_held(&self.control);
        let position = position_fits(self.position);
        let list = self.stack.entries();
        let entries = ranges_fit(list);
        let dividers = all_below(&self.dividers, 256);
        status & conditions & control & position & entries & dividers
    }

    /// Question 4: whether every current or stacked status with UM 1 has both set bits 0 (Manual 8.2).
    #[tactic(auto, using(crate::proofs::Asked::modes_entries))]
    fn modes_fit(&self) -> bool
        ensures { result ≡ question4 self.now }
    {
        let status = sets_fit(self.psr());
        let entries = modes_fit(self.stack.entries());
        status & entries
    }

    /// Question 5: whether the stack's sources are below 12, those of INT_SERV and all different, and the RETI_ registers show its top (Manual 8.2).
    fn stack_fits(&self) -> bool
        ensures { result ≡ question5 self.now }
    {
        let entries = self.stack.entries();
        if !sources_fit(entries) {
            return false;
        }
        let served = self.control(INT_SERV);
        if served != service_flags(entries) {
            return false;
        }
        let different = served.count_ones() as usize == self.depth();
        let top = self.shown_top();
        let address = self.control(RETI_ADDR) == top.address;
        let psr = self.control(RETI_PSR) == top.psr;
        let c0 = self.control(RETI_CR0) == top.c0;
        different & address & psr & c0
    }

    /// The first of these questions that is answered no, if one is (Manual 9.2).
    #[tactic(auto, using(crate::proofs::Asked::refused_3, crate::proofs::Asked::refused_4, crate::proofs::Asked::refused_5, crate::proofs::Asked::refused_none))]
    pub fn check(&self) -> Result<(), Refusal>
        ensures { read_by (refused_by result) self.now ≡ ask_machine self.now }
    {
        if !self.numbers_fit() {
            return Err(Refusal::NumberUnfit);
        }
        if !self.modes_fit() {
            return Err(Refusal::ModeUnfit);
        }
        if !self.stack_fits() {
            return Err(Refusal::StackUnfit);
        }
        Ok(())
    }
}
