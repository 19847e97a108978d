//! The byte and field operations: conb, conh, exb, exh, exbf, exbfi (Manual 3.2).
#![tactic(auto, using(crate::proofs::Values::low_bit, crate::proofs::Values::low_two), unfolding(crate::proofs::Performed::performing, word::specs::Arithmetic::piece_of))]

ghost use Rattle.std.specs.Prelude.{◌≡◌, ◌≤◌, Ok};
ghost use Rattle.isa.specs.Operation.{operation_of};
ghost use Rattle.execute.specs.View.{View};
ghost use Rattle.execute.specs.Execute.{execute};
ghost use Rattle.execute.specs.Promises.{Performs};

use crate::arithmetic::immediate_value;
use isa::Instruction;
use machine::Machine;

/// Operations 58 to 63: conb to exbfi.
pub fn fields(m: &mut Machine, i: Instruction, x: u32, y: u32)
    requires { (58 ≤ i.opcode) × (i.opcode ≤ 63) }
    ensures { (v : View) → Performs (execute (operation_of i.opcode) v i x y) (Ok (tt {0})) m.old m.new }
{
    let n = immediate_value(i);
    match i.opcode {
        58 => m.set_result(i.dreg, word::join(x, y, 8)),
        59 => m.set_result(i.dreg, word::join(x, y, 16)),
        60 => m.set_result(i.dreg, word::field(x, 8 * (n % 4), 8)),
        61 => m.set_result(i.dreg, word::field(x, 16 * (n % 2), 16)),
        62 => m.set_result(i.dreg, word::extract(x, y)),
        _ => m.set_result(i.dreg, word::extract(x, n)),
    }
}
