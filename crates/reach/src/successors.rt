//! Where an instruction leads.
#![tactic(auto, using(isa::proofs::Decoded::bytes_positive, isa::proofs::Decoded::bytes_most, crate::proofs::Visits::near, crate::proofs::Visits::low_bit), unfolding(word::specs::Choice::choices, crate::specs::Successors::succession))]

ghost use Rattle.std.specs.Prelude.{◌≡◌, ◌+◌, ◌≤◌, ◌<◌, length, option_to_list, All, IfSome};
ghost use Rattle.isa.specs.Operation.{properties};
ghost use Rattle.isa.specs.Decode.{word_bytes};
ghost use Rattle.machine.specs.Machine.{MOST_MEMORY};
ghost use Rattle.reach.specs.Successors.{is_word, words_among, falls_through, has_target, words_on, resume_words, slot_words, keeps_width, next_of, target_of, resumption_of, present, successors};

use isa::{Flow, Instruction, Operation, Role, Width};

/// Whether there is a word at an address of a program of so many bytes.
pub fn is_word(width: Width, size: usize, at: u32) -> bool
    ensures { result ≡ is_word width size at }
{
    let bytes = width.bytes();
    at % bytes == 0 && at as usize + bytes as usize <= size
}

/// An address, where there is a word at it.
pub fn word_among(width: Width, size: usize, at: Option<i64>) -> Option<u32>
    requires { size ≤ MOST_MEMORY }
    ensures exact { option_to_list result ≡ words_among width size (option_to_list at) }
    ensures inside { IfSome result (λ b. b < size) }
{
    let at = u32::try_from(at?).ok()?;
    if is_word(width, size, at) {
        Some(at)
    } else {
        None
    }
}

/// Whether an operation leads to the next word.
fn falls_through(flow: Flow, conditional: bool) -> bool
    ensures { result ≡ falls_through flow conditional }
{
    match flow {
        Flow::Straight | Flow::ConditionalBranch => true,
        Flow::RegisterJump | Flow::RegisterLink | Flow::SystemCall => conditional,
        Flow::ImmediateJump
        | Flow::ImmediateLink
        | Flow::UserReturn
        | Flow::InterruptReturn
        | Flow::WidthSwitch
        | Flow::TrapCall => false,
    }
}

/// Whether it has a target by immediate.
fn has_target(flow: Flow) -> bool
    ensures { result ≡ has_target flow }
{
    matches!(
        flow,
        Flow::ImmediateJump | Flow::ImmediateLink | Flow::ConditionalBranch
    )
}

/// Whether a swm keeps the width.
#[tactic(auto, using(crate::proofs::Visits::low_bit), unfolding(isa::specs::Shown::shown_value, crate::specs::Successors::keeps_width))]
fn keeps_width(width: Width, i: Instruction) -> bool
    ensures { result ≡ keeps_width width i.immediate }
{
    let wide = i.operand(Role::Imm) % 2 == 1;
    match width {
        Width::Narrow => !wide,
        Width::Wide => wide,
    }
}

/// How many words on a call returns, or a swm goes on.
fn resume_words(flow: Flow, keeps_width: bool) -> Option<u32>
    ensures exact { result ≡ words_on (resume_words flow keeps_width) }
    ensures few { IfSome result (λ n. n < 4) }
{
    match flow {
        Flow::ImmediateLink | Flow::RegisterLink | Flow::SystemCall => Some(2),
        Flow::WidthSwitch if keeps_width => Some(3),
        _ => None,
    }
}

/// How many of the next words are slots of an operation.
pub fn slot_words(operation: Operation) -> u32
    ensures { result ≡ slot_words (properties operation).flow (properties operation).nops }
{
    match operation.flow() {
        Flow::ImmediateJump | Flow::ImmediateLink | Flow::RegisterJump | Flow::RegisterLink => 1,
        Flow::SystemCall | Flow::UserReturn | Flow::InterruptReturn | Flow::WidthSwitch => {
            operation.nops_after()
        }
        Flow::Straight | Flow::ConditionalBranch | Flow::TrapCall => 0,
    }
}

/// The address of the next word, if the instruction at an address leads there.
pub fn next_of(width: Width, i: Instruction, a: u32) -> Option<i64>
    ensures { option_to_list result ≡ next_of width i a }
{
    let flow = Operation::from_number(i.opcode).flow();
    if falls_through(flow, i.conditional) {
        Some(i64::from(a) + i64::from(width.bytes()))
    } else {
        None
    }
}

/// Its target, by immediate, if it has one: two bytes times the immediate after its slot.
pub fn target_of(width: Width, i: Instruction, a: u32) -> Option<i64>
    ensures { option_to_list result ≡ target_of width i a }
{
    let flow = Operation::from_number(i.opcode).flow();
    if has_target(flow) {
        Some(i64::from(a) + i64::from(width.bytes()) + 2 * i64::from(i.immediate))
    } else {
        None
    }
}

/// The address of the word at which a call returns, or a swm goes on, if there is one.
pub fn resumption_of(width: Width, i: Instruction, a: u32) -> Option<i64>
    ensures { option_to_list result ≡ resumption_of width i a }
{
    let flow = Operation::from_number(i.opcode).flow();
    let words = resume_words(flow, keeps_width(width, i))?;
    Some(i64::from(a) + i64::from(words * width.bytes()))
}
