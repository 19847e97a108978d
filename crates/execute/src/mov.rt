//! Operations that move a value: mov, not, mulhi, cmp, cmpi, lli, lui (Manual 3.2).
#![tactic(auto, using(crate::proofs::Values::low_half), unfolding(crate::proofs::Performed::performing, word::specs::Arithmetic::not_of))]

ghost use Rattle.std.specs.Prelude.{◌≡◌, ℕ, ◌+◌, ◌*◌, ◌%◌, ◌^◌, ◌≤◌, ◌<◌, OnErr};
ghost use Rattle.word.specs.Word.{word_of};
ghost use Rattle.isa.specs.declared.operation.Operation.TheVariants.{Mulhi};
ghost use Rattle.isa.specs.Operation.{operation_of};
ghost use Rattle.execute.specs.View.{Shows};
ghost use Rattle.execute.specs.Execute.{execute};
ghost use Rattle.execute.specs.Promises.{PerformsSeen};

use crate::arithmetic::immediate_value;
use isa::Instruction;
use machine::{Fault, Machine, Stop};

/// The high half of a held product, or stop 14.
#[tactic(auto, unfolding(crate::proofs::Performed::performing, crate::specs::View::view, machine::specs::Position::product_of))]
fn high_half(m: &mut Machine, i: Instruction) -> Result<(), Fault>
    ensures does { (x y : ℕ) → PerformsSeen (λ v. execute Mulhi v i x y) result m.old m.new }
    ensures kept { OnErr result (m.new ≡ m.old) }
{
    match m.position().product() {
        Some(product) => {
            m.set_result(i.dreg, product.high);
            Ok(())
        }
        None => Err(Fault::Stop(Stop::NoProduct)),
    }
}

/// lui: the immediate, above the low half of the register's own value.
#[tactic(auto, using(crate::proofs::Values::low_half), unfolding(crate::specs::View::view))]
fn high_immediate(m: &Machine, i: Instruction) -> u32
    requires { i.dreg < 32 }
    ensures { Shows (λ v. word_of 16 i.immediate * 2 ^ 16 + v.target i.dreg % 2 ^ 16) result m.now }
{
    immediate_value(i) % 0x1_0000 * 0x1_0000 + m.target(i.dreg) % 0x1_0000
}

/// Operations 29 to 35: mov to lui. Stop 14 for mulhi with no product held.
pub fn moves(m: &mut Machine, i: Instruction, x: u32, y: u32) -> Result<(), Fault>
    requires { (i.dreg < 32) × (29 ≤ i.opcode) × (i.opcode ≤ 35) }
    ensures does { PerformsSeen (λ v. execute (operation_of i.opcode) v i x y) result m.old m.new }
    ensures kept { OnErr result (m.new ≡ m.old) }
{
    let d = i.dreg;
    let n = immediate_value(i);
    match i.opcode {
        29 => m.set_result(d, x),
        30 => m.set_result(d, !x),
        31 => return high_half(m, i),
        32 => m.set_comparison(i.creg, word::cmp(x, y)),
        33 => m.set_comparison(i.creg, word::cmp(x, n)),
        34 => m.set_result(d, n % 0x1_0000),
        _ => {
            let value = high_immediate(m, i);
            m.set_result(d, value);
        }
    }
    Ok(())
}
