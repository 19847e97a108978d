//! Operations on the machine's status: calls and returns, modes, all condition registers at once (Manual 3.2).
#![tactic(auto, using(crate::proofs::Values::low_bit, crate::proofs::Values::low_two, crate::proofs::Values::low_five, machine::proofs::Statuses::wide_named), unfolding(crate::proofs::Performed::performing))]

ghost use Rattle.std.specs.Prelude.{◌≡◌, ℕ, ◌≤◌, OnErr};
ghost use Rattle.isa.specs.declared.operation.Operation.TheVariants.{Reti};
ghost use Rattle.isa.specs.Operation.{operation_of};
ghost use Rattle.machine.specs.Stack.{StackShown};
ghost use Rattle.execute.specs.Execute.{packed, execute};
ghost use Rattle.execute.specs.Promises.{PerformsSeen};

use crate::arithmetic::immediate_value;
use isa::{Instruction, Width};
use machine::{Exception, Fault, Machine, Stop};

/// The condition registers in a word: Cn at bits 3n+2..3n.
#[tactic(auto, using(crate::proofs::Values::packed_from, crate::proofs::Values::packed_below, crate::proofs::Values::packed_none), unfolding(crate::specs::Execute::packed))]
fn packed(m: &Machine) -> u32
    ensures { result ≡ packed m.now.conditions }
{
    let conditions = m.conditions();
    let mut x = 0;
    for n in (0..8).rev() {
        x = conditions[n] % 8 + 8 * x;
    }
    x
}

/// Back from the interrupt in service, or stop 15.
#[tactic(auto, using(crate::proofs::Values::nested_none, crate::proofs::Values::nested_some), unfolding(crate::proofs::Performed::performing, crate::specs::View::view))]
fn interrupt_return(m: &mut Machine, i: Instruction) -> Result<(), Fault>
    requires { StackShown m.old }
    ensures does { (x y : ℕ) → PerformsSeen (λ v. execute Reti v i x y) result m.old m.new }
    ensures kept { OnErr result (m.new ≡ m.old) }
{
    if m.depth() == 0 {
        Err(Fault::Stop(Stop::EmptyStack))
    } else {
        m.return_from_interrupt();
        Ok(())
    }
}

/// Operations 48 to 57: scall to rcon. Stop 15 for reti with an empty interrupt stack.
pub fn system(m: &mut Machine, i: Instruction, x: u32) -> Result<(), Fault>
    requires { StackShown m.old × (48 ≤ i.opcode) × (i.opcode ≤ 57) }
    ensures does { (y : ℕ) → PerformsSeen (λ v. execute (operation_of i.opcode) v i x y) result m.old m.new }
    ensures kept { OnErr result (m.new ≡ m.old) }
{
    let n = immediate_value(i);
    match i.opcode {
        48 => m.call_system(),
        49 => m.return_to_user(),
        50 => return interrupt_return(m, i),
        51 => m.select_sets(n % 4),
        52 => m.enable_interrupts(false),
        53 => m.enable_interrupts(true),
        54 => m.switch_width(Width::from(n % 2 == 1)),
        55 => return Err(Fault::Exception(Exception::Trap(n))),
        56 => {
            let flags = packed(m);
            m.set_result(i.dreg, flags);
        }
        _ => m.set_conditions(x),
    }
    Ok(())
}
