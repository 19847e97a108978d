//! Data memory: what an address leads to (Manual 1.2 and 4.7).

ghost use Rattle.std.specs.Prelude.{◌≡◌, ◌&&◌};
ghost use Rattle.machine.specs.Machine.{psr, user_mode, state_of, memory_of};
ghost use Rattle.machine.specs.Control.{protected_cell};
ghost use Rattle.std.specs.Result.{IfOk};
ghost use Rattle.execute.specs.Promises.{IsThere};
ghost use Rattle.execute.specs.View.{attempted, in_block, found_at, place_at};

use machine::control::CCB_BASE;
use machine::{Exception, Fault, Machine, Stop};

/// Where a data address leads (Manual 1.2).
#[derive(Clone, Copy)]
pub enum Location {
    /// A register of the control block, by its offset, 0 to 255.
    Block(u32),
    /// A data cell, by its address.
    Cell(u32),
}

/// Whether a data address is protected in the mode of the machine (Manual 1.3).
fn guarded(m: &Machine, a: u32) -> bool
    ensures { result ≡ user_mode (psr m.now) && protected_cell m.now a }
{
    m.is_user() && m.protects_cell(a)
}

/// Whether an address is one of the control block's 256.
#[tactic(auto, unfolding(crate::specs::View::in_block))]
fn in_block(base: u32, a: u32) -> bool
    ensures { result ≡ in_block base a }
{
    if base <= a { a - base <= 255 } else { false }
}

/// What is at a data address: the control block, a cell, or nothing (stop 12).
#[tactic(auto, unfolding(crate::specs::View::in_block, crate::specs::View::found_at, word::specs::Choice::choices))]
fn found(m: &Machine, cells: &[u32], a: u32) -> Result<Location, Fault>
    ensures there { IfOk result (λ l. IsThere l cells.now) }
    ensures exact { attempted result ≡ found_at (state_of m.now (memory_of cells.now)) a }
{
    let base = m.control(CCB_BASE);
    if in_block(base, a) {
        Ok(Location::Block(a - base))
    } else if (a as usize) < cells.len() {
        Ok(Location::Cell(a))
    } else {
        Err(Fault::Stop(Stop::NoData))
    }
}

/// What an access reaches at an address that may lie outside 32 bits: 07h by its low 32 bits, 08h, or what is there (Manual 4.7).
#[tactic(auto, unfolding(crate::specs::View::place_at, word::specs::Choice::choices))]
pub fn place(m: &Machine, cells: &[u32], address: i64) -> Result<Location, Fault>
    ensures there { IfOk result (λ l. IsThere l cells.now) }
    ensures exact { attempted result ≡ place_at (state_of m.now (memory_of cells.now)) address }
{
    let a = word::low_word(address);
    if guarded(m, a) {
        Err(Fault::Exception(Exception::DataProtected))
    } else if !word::is_address(address) {
        Err(Fault::Exception(Exception::AddressOutside))
    } else {
        found(m, cells, a)
    }
}
