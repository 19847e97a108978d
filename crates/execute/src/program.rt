//! Program memory: its protection, the fetch of an instruction word, and the nops that must follow it (Manual 1.3, 4.3 and 4.6).

ghost use Rattle.std.specs.Prelude.{◌≡◌, not, ◌&&◌, ◌+◌, ◌%◌, ◌^◌, ◌≤◌, ◌<◌, eqb};
ghost use Rattle.isa.specs.Decode.{word_bytes};
ghost use Rattle.machine.specs.Control.{control_at, IMEM_BOUND_LO, IMEM_BOUND_HI};
ghost use Rattle.machine.specs.Machine.{MOST_MEMORY, Memory, psr, user_mode, width_of};
ghost use Rattle.execute.specs.View.{View, attempted, any_within, bytes_at, read_at, view_of, nops_from, nops_after};

use isa::Width;
use machine::control::{IMEM_BOUND_HI, IMEM_BOUND_LO};
use machine::{Exception, Fault, Machine, Stop};

/// Whether `user` is true and one of the n program bytes from a on is protected: the two ranges overlap (Manual 1.3).
#[tactic(auto, using(crate::proofs::Bytes::overlap_past, crate::proofs::Bytes::overlap_test))]
pub fn closed(m: &Machine, user: bool, a: u32, n: u32) -> bool
    requires { (0 < n) × (a + n ≤ 2 ^ 32) }
    ensures { result ≡ user && any_within (control_at m.now IMEM_BOUND_LO) (control_at m.now IMEM_BOUND_HI) a n }
{
    let low = m.control(IMEM_BOUND_LO);
    let high = m.control(IMEM_BOUND_HI);
    if a <= high {
        user & (low <= a + (n - 1)) & (low <= high)
    } else {
        false
    }
}

/// Whether an address is no multiple of a word's bytes.
#[tactic(auto, unfolding(isa::specs::Decode::word_bytes))]
pub fn misaligned(width: Width, a: u32) -> bool
    ensures { result ≡ not (eqb (a % word_bytes width) 0) }
{
    match width {
        Width::Narrow => a % 2 != 0,
        Width::Wide => a % 4 != 0,
    }
}

/// The instruction word at an address, if all of its bytes are there. Each width has a test of its own: a step takes 8 instructions less.
#[tactic(auto, using(crate::proofs::Bytes::fetched_word, crate::proofs::Bytes::bytes_absent), unfolding(isa::specs::Decode::word_bytes))]
fn word_at(program: &[u8], width: Width, a: u32) -> Result<u32, Fault>
    ensures { attempted result ≡ bytes_at program.now (word_bytes width) a 0 }
{
    let at = a as usize;
    match width {
        Width::Narrow => {
            if at + 2 <= program.len() {
                Ok(width.word_at(program, at))
            } else {
                Err(Fault::Stop(Stop::ByteAbsent))
            }
        }
        Width::Wide => {
            if at + 4 <= program.len() {
                Ok(width.word_at(program, at))
            } else {
                Err(Fault::Stop(Stop::ByteAbsent))
            }
        }
    }
}

/// The instruction word at an address: protected, absent, or there.
#[tactic(auto, using(isa::proofs::Decoded::bytes_positive), unfolding(crate::specs::View::read_at, word::specs::Choice::choices))]
fn read_at(m: &Machine, program: &[u8], width: Width, a: u32) -> Result<u32, Fault>
    requires { a + word_bytes width ≤ 2 ^ 32 }
    ensures { attempted result ≡ read_at program.now (control_at m.now IMEM_BOUND_LO) (control_at m.now IMEM_BOUND_HI) (user_mode (psr m.now)) (word_bytes width) a }
{
    if closed(m, m.is_user(), a, width.bytes()) {
        Err(Fault::Exception(Exception::ProgramProtected))
    } else {
        word_at(program, width, a)
    }
}

/// The next instruction word: misaligned (05h), protected (00h), absent (stop 11), or there (Manual 4.3).
#[tactic(auto, using(crate::proofs::Bytes::aligned_fits, crate::proofs::Bytes::aligned_at), unfolding(crate::specs::View::view, crate::specs::View::fetch_at, machine::specs::Machine::width_of, word::specs::Choice::choices))]
pub fn fetch(m: &Machine, program: &[u8]) -> Result<u32, Fault>
    ensures { (memory : Memory) → attempted result ≡ (view_of program.now m.now memory).fetched }
{
    let pc = m.pc();
    let width = m.width();
    if misaligned(width, pc) {
        Err(Fault::Exception(Exception::MisalignedProgram))
    } else {
        read_at(m, program, width, pc)
    }
}

/// The k-th word after the next instruction: protected, absent, or there.
#[tactic(auto, using(crate::proofs::Bytes::words_on_law), unfolding(crate::specs::View::view, machine::specs::Machine::width_of))]
fn following(m: &Machine, program: &[u8], k: u32) -> Result<u32, Fault>
    requires { (m.now.position.pc < MOST_MEMORY) × (k < 4) }
    ensures { (memory : Memory) → attempted result ≡ (view_of program.now m.now memory).following k }
{
    let width = m.width();
    read_at(m, program, width, m.pc() + k * width.bytes())
}

/// Whether the k-th word after the next instruction is a nop.
fn check_nop(m: &Machine, program: &[u8], k: u32) -> Result<(), Fault>
    requires { (m.now.position.pc < MOST_MEMORY) × (k < 4) }
    ensures { (memory : Memory) → let v = view_of program.now m.now memory in attempted result ≡ nops_from (width_of v.status) v.following k 1 }
{
    let word = following(m, program, k)?;
    if m.width().opcode(word) == 0 {
        Ok(())
    } else {
        Err(Fault::Stop(Stop::NopMissing))
    }
}

/// Whether so many nops, at most three, follow the next instruction: one word after another, and the first that fails decides (Manual 4.6). Made a part
/// of the loop of steps, it takes registers from all other instructions, 5 % of a step with sums and branches.
#[inline(never)]
pub fn check_nops(m: &Machine, program: &[u8], count: u32) -> Result<(), Fault>
    requires { (m.now.position.pc < MOST_MEMORY) × (count < 4) }
    ensures { (memory : Memory) → attempted result ≡ nops_after (view_of program.now m.now memory) count }
{
    for k in 1..=count {
        check_nop(m, program, k)?;
    }
    Ok(())
}
