//! The operations whose result comes from two sources alone: sums, bits, products, shifts (Manual 3.2).
#![tactic(auto, unfolding(crate::proofs::Performed::performing))]

ghost use Rattle.std.specs.Prelude.{◌≡◌, ℕ, ◌≤◌, OnErr};
ghost use Rattle.word.specs.Word.{word_of};
ghost use Rattle.isa.specs.Operation.{operation_of};
ghost use Rattle.execute.specs.View.{View};
ghost use Rattle.execute.specs.Execute.{checked, execute};
ghost use Rattle.execute.specs.Promises.{Performs};

use isa::Instruction;
use machine::{Exception, Fault, Machine};
use word::Sum;

/// An instruction's immediate as a word.
#[tactic(auto, using(word::proofs::Integers::word_is))]
pub fn immediate_value(i: Instruction) -> u32
    ensures { result ≡ word_of 32 i.immediate }
{
    i.immediate.cast_unsigned()
}

/// A sum that gives 06h outside signed 32 bits (Manual 3.2).
fn checked(m: &mut Machine, d: u32, s: Sum) -> Result<(), Fault>
    ensures does { Performs (checked d s) result m.old m.new }
    ensures kept { OnErr result (m.new ≡ m.old) }
{
    if s.overflow {
        return Err(Fault::Exception(Exception::Overflow));
    }
    m.set_result_flags(d, s.value, s.flags);
    Ok(())
}

/// Operations 1 to 17: add to sext, on two registers.
#[tactic(auto, using(word::proofs::Bitwise::and_word, word::proofs::Bitwise::or_word, word::proofs::Bitwise::xor_word), unfolding(crate::proofs::Performed::performing))]
pub fn registers(m: &mut Machine, i: Instruction, x: u32, y: u32) -> Result<(), Fault>
    requires { (1 ≤ i.opcode) × (i.opcode ≤ 17) }
    ensures does { (v : View) → Performs (execute (operation_of i.opcode) v i x y) result m.old m.new }
    ensures kept { OnErr result (m.new ≡ m.old) }
{
    let d = i.dreg;
    match i.opcode {
        1 => return checked(m, d, word::add(x, y)),
        2 => {
            let s = word::add(x, y);
            m.set_result_flags(d, s.value, s.flags);
        }
        3 => return checked(m, d, word::sub(x, y)),
        4 => {
            let s = word::sub(x, y);
            m.set_result_flags(d, s.value, s.flags);
        }
        5 => m.set_result(d, x & y),
        6 => m.set_result(d, x | y),
        7 => m.set_result(d, x ^ y),
        8 => m.set_product(d, word::muls(x, y)),
        9 => m.set_product(d, word::mulu(x, y)),
        10 => m.set_product(d, word::mulus(x, y)),
        11 => m.set_result(d, word::muls_16(x, y)),
        12 => m.set_result(d, word::mulu_16(x, y)),
        13 => m.set_result(d, word::mulus_16(x, y)),
        14 => m.set_result(d, word::sll(x, y)),
        15 => m.set_result(d, word::srl(x, y)),
        16 => m.set_result(d, word::sra(x, y)),
        _ => m.set_result(d, word::sext(x, y)),
    }
    Ok(())
}

/// Operations 18 to 26: addi to sexti, on a register and an immediate.
#[tactic(auto, using(word::proofs::Bitwise::and_word, word::proofs::Bitwise::or_word, word::proofs::Integers::signed_is), unfolding(crate::proofs::Performed::performing))]
pub fn immediates(m: &mut Machine, i: Instruction, x: u32) -> Result<(), Fault>
    requires { (18 ≤ i.opcode) × (i.opcode ≤ 26) }
    ensures does { (v : View) (y : ℕ) → Performs (execute (operation_of i.opcode) v i x y) result m.old m.new }
    ensures kept { OnErr result (m.new ≡ m.old) }
{
    let d = i.dreg;
    let n = immediate_value(i);
    match i.opcode {
        18 => return checked(m, d, word::add(x, n)),
        19 => {
            let s = word::add(x, n);
            m.set_result_flags(d, s.value, s.flags);
        }
        20 => m.set_result(d, x & n),
        21 => m.set_result(d, x | n),
        22 => m.set_product(d, word::multiply(x.cast_signed(), i.immediate)),
        23 => m.set_result(d, word::sll(x, n)),
        24 => m.set_result(d, word::srl(x, n)),
        25 => m.set_result(d, word::sra(x, n)),
        _ => m.set_result(d, word::sext(x, n)),
    }
    Ok(())
}
