//! Jumps and branches: their targets and the tests of a taken jump (Manual 4.8).
#![tactic(auto, using(crate::proofs::Attempts::failed_on), unfolding(crate::specs::Execute::on_found, machine::specs::Apply::applying))]

ghost use Rattle.std.specs.Prelude.{◌≡◌, ℕ, ◌≤◌, ◌<◌, OnErr};
ghost use Rattle.isa.specs.Operation.{operation_of};
ghost use Rattle.machine.specs.Machine.{MOST_MEMORY};
ghost use Rattle.machine.specs.Effect.{Jump, JumpLink};
ghost use Rattle.execute.specs.View.{Shows};
ghost use Rattle.execute.specs.Execute.{target_by, jumped, execute};
ghost use Rattle.execute.specs.Promises.{TestsJump, PerformsSeen};

use crate::program::{closed, misaligned};
use isa::{Condition, Instruction};
use machine::{Exception, Fault, Machine};

/// Where a taken jump goes; or its exception: 04h, 03h or 09h (Manual 4.8).
#[tactic(auto, using(isa::proofs::Decoded::bytes_positive, crate::proofs::Bytes::aligned_fits, crate::proofs::Bytes::aligned_at), unfolding(crate::specs::View::view, crate::specs::Execute::jumped, crate::specs::Execute::on_found, machine::specs::Machine::width_of, word::specs::Choice::choices))]
fn tested(m: &Machine, target: i64) -> Result<u32, Fault>
    ensures { TestsJump target result m.now }
{
    let width = m.width();
    let t = word::low_word(target);
    if !word::is_address(target) {
        Err(Fault::Exception(Exception::TargetOutside))
    } else if misaligned(width, t) {
        Err(Fault::Exception(Exception::MisalignedTarget))
    } else if closed(m, m.is_user(), t, width.bytes()) {
        Err(Fault::Exception(Exception::TargetProtected))
    } else {
        Ok(t)
    }
}

/// A taken jump: to the target after the slot.
fn jump(m: &mut Machine, target: i64) -> Result<(), Fault>
    ensures does { PerformsSeen (λ v. jumped v target Jump) result m.old m.new }
    ensures kept { OnErr result (m.new ≡ m.old) }
{
    let t = tested(m, target)?;
    m.jump(t);
    Ok(())
}

/// The same with a link to the address after the slot.
fn jump_link(m: &mut Machine, target: i64) -> Result<(), Fault>
    ensures does { PerformsSeen (λ v. jumped v target JumpLink) result m.old m.new }
    ensures kept { OnErr result (m.new ≡ m.old) }
{
    let t = tested(m, target)?;
    m.jump_link(t);
    Ok(())
}

/// A target by immediate.
#[tactic(auto, using(isa::proofs::Decoded::bytes_most), unfolding(crate::specs::View::view, crate::specs::Execute::target_by, crate::specs::Execute::after_this, machine::specs::Machine::width_of))]
fn target(m: &Machine, n: i32) -> i64
    requires { m.now.position.pc < MOST_MEMORY }
    ensures { Shows (λ v. target_by v n) result m.now }
{
    word::jump_target(m.pc() + m.width().bytes(), n)
}

/// Operations 36 to 39: jmp, jal, jmpr, jalr.
#[tactic(auto, unfolding(isa::specs::Operation::operations, isa::specs::Operation::operation_of, crate::specs::Execute::execute))]
pub fn jumps(m: &mut Machine, i: Instruction, x: u32) -> Result<(), Fault>
    requires { (m.old.position.pc < MOST_MEMORY) × (36 ≤ i.opcode) × (i.opcode ≤ 39) }
    ensures does { (y : ℕ) → PerformsSeen (λ v. execute (operation_of i.opcode) v i x y) result m.old m.new }
    ensures kept { OnErr result (m.new ≡ m.old) }
{
    match i.opcode {
        36 => {
            let t = target(m, i.immediate);
            jump(m, t)
        }
        37 => {
            let t = target(m, i.immediate);
            jump_link(m, t)
        }
        38 => jump(m, i64::from(x)),
        _ => jump_link(m, i64::from(x)),
    }
}

/// Operations 40 to 47: branches on conditions 0 to 7.
#[tactic(auto, using(crate::proofs::Alike::branches_are), unfolding(crate::specs::View::view, crate::specs::Execute::branch, machine::specs::Apply::applying, word::specs::Choice::choices))]
pub fn branches(m: &mut Machine, i: Instruction) -> Result<(), Fault>
    requires { (m.old.position.pc < MOST_MEMORY) × (i.creg < 8) × (40 ≤ i.opcode) × (i.opcode ≤ 47) }
    ensures does { (x y : ℕ) → PerformsSeen (λ v. execute (operation_of i.opcode) v i x y) result m.old m.new }
    ensures kept { OnErr result (m.new ≡ m.old) }
{
    if Condition::from_number(i.opcode - 40).holds(m.condition(i.creg)) {
        let t = target(m, i.immediate);
        jump(m, t)
    } else {
        m.advance();
        Ok(())
    }
}
