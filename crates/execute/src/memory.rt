//! Loads and stores: on the control block, a cell, or neither (Manual 4.7).
#![tactic(auto, unfolding(crate::proofs::Performed::performing, crate::specs::View::view, crate::specs::View::map_found, crate::specs::View::held_at))]

ghost use Rattle.std.specs.Prelude.{◌≡◌, ℕ, ◌<◌, OnErr, slice_set};
ghost use Rattle.isa.specs.declared.operation.Operation.TheVariants.{Ld, St};
ghost use Rattle.machine.specs.Stack.{StackShown};
ghost use Rattle.machine.specs.Apply.{advance};
ghost use Rattle.execute.specs.Execute.{execute};
ghost use Rattle.execute.specs.Promises.{PerformsStoring};

use crate::data::{Location, place};
use isa::Instruction;
use machine::{Fault, Machine};

/// Operation 27, ld: the register takes what is there. No cell changes. Stop 12 where nothing is there.
pub fn load(m: &mut Machine, cells: &[u32], i: Instruction, x: u32) -> Result<(), Fault>
    ensures does { (y : ℕ) → PerformsStoring (λ v. execute Ld v i x y) result m.old cells.now m.new cells.now }
    ensures kept { OnErr result (m.new ≡ m.old) }
{
    let value = match place(m, cells, word::offset_by(x, i.immediate))? {
        Location::Block(offset) => m.loaded_control(offset),
        Location::Cell(a) => cells[a as usize],
    };
    m.set_result(i.dreg, value);
    Ok(())
}

/// A data cell takes a value, and PC goes on; a store beyond the last cell leaves the cells as they are.
pub fn store_cell(m: &mut Machine, cells: &mut [u32], a: u32, x: u32)
    ensures cells { cells.new ≡ slice_set cells.old a x }
    ensures goes_on { m.new ≡ advance m.old }
{
    if (a as usize) < cells.len() {
        cells[a as usize] = x;
    }
    m.advance();
}

/// Operation 28, st: the control register or the cell takes the register's value. Stop 12 where nothing is there.
pub fn store(m: &mut Machine, cells: &mut [u32], i: Instruction, x: u32) -> Result<(), Fault>
    requires { StackShown m.old × (i.dreg < 32) }
    ensures does { (y : ℕ) → PerformsStoring (λ v. execute St v i x y) result m.old cells.old m.new cells.new }
    ensures kept { OnErr result ((m.new ≡ m.old) × (cells.new ≡ cells.old)) }
{
    let location = place(m, cells, word::offset_by(x, i.immediate))?;
    let value = m.source(i.dreg);
    match location {
        Location::Block(offset) => m.store_to_control(offset, value),
        Location::Cell(a) => store_cell(m, cells, a, value),
    }
    Ok(())
}
