//! The next instruction: the order of its tests (Manual 4), words of groups of operations.
#![tactic(auto, using(crate::proofs::Tests::word_tests))]

ghost use Rattle.std.specs.Prelude.{◌≡◌, ◌≤◌, ◌<◌, length, OnErr};
ghost use Rattle.isa.specs.Operation.{properties, unavailable};
ghost use Rattle.isa.specs.Decode.{opcode_of};
ghost use Rattle.machine.specs.Machine.{MOST_MEMORY, Memory, psr, user_mode, width_of, memory_of};
ghost use Rattle.machine.specs.Position.{slot_of};
ghost use Rattle.machine.specs.Stack.{StackShown};
ghost use Rattle.machine.specs.Apply.{report_by, report_on};
ghost use Rattle.execute.specs.View.{Found, Shows, attempted, view_of, condition_false};
ghost use Rattle.execute.specs.Decide.{fetched_then, decide};
ghost use Rattle.execute.specs.Promises.{PerformsIn, PerformsSeen, StoresIn, PerformsStoring, available_by, in_no_slot, allowed, taken, Reported};

use crate::arithmetic::{immediates, registers};
use crate::field::fields;
use crate::jump::{branches, jumps};
use crate::memory::{load, store};
use crate::mov::moves;
use crate::program::{check_nops, fetch};
use crate::status::system;
use isa::{Condition, Instruction, Operation};
use machine::{Exception, Fault, Machine, Stop};

/// Whether the instruction is conditional and its condition false (Manual 4.5).
#[tactic(auto, unfolding(crate::specs::View::condition_false, crate::specs::View::view))]
pub fn condition_false(m: &Machine, i: Instruction) -> bool
    requires { i.creg < 8 }
    ensures { Shows (λ v. condition_false v i) result m.now }
{
    if i.conditional {
        !Condition::from_number(i.condition).holds(m.condition(i.creg))
    } else {
        false
    }
}

/// 02h, if an operation may not be used in the width and the mode of the machine (Manual 4.4).
#[tactic(auto, unfolding(isa::specs::Operation::unavailable))]
fn check_available(m: &Machine, op: Operation) -> Result<(), Fault>
    ensures { attempted result ≡ available_by (unavailable (properties op).availability (width_of (psr m.now)) (user_mode (psr m.now))) }
{
    match op.unavailable(m.width(), m.is_user()) {
        Some(_) => Err(Fault::Exception(Exception::Unavailable)),
        None => Ok(()),
    }
}

/// Stop 13, if a branch slot waits: no control transfer may stand in it (Manual 4.4).
fn check_no_slot(m: &Machine) -> Result<(), Fault>
    ensures { attempted result ≡ in_no_slot (slot_of m.now.position) }
{
    match m.position().slot() {
        Some(_) => Err(Fault::Stop(Stop::TransferInSlot)),
        None => Ok(()),
    }
}

/// What is asked of an operation before its condition: 02h, then stop 13 for a control transfer in a slot, its condition true or not (Manual 4.4).
#[tactic(auto, unfolding(crate::specs::View::found_then, crate::specs::Promises::allowed, word::specs::Choice::choices))]
fn check_allowed(m: &Machine, op: Operation) -> Result<(), Fault>
    ensures { attempted result ≡ allowed op m.now }
{
    check_available(m, op)?;
    if op.is_transfer() {
        check_no_slot(m)
    } else {
        Ok(())
    }
}

/// Words of operations 1 to 17: add to sext.
fn register_word(m: &mut Machine, word: u32) -> Result<(), Fault>
    requires { (1 ≤ opcode_of (width_of (psr m.old)) word) × (opcode_of (width_of (psr m.old)) word ≤ 17) }
    ensures does { PerformsSeen (λ v. fetched_then v (Found word)) result m.old m.new }
    ensures kept { OnErr result (m.new ≡ m.old) }
{
    let i = Instruction::of_registers(word, m.width());
    if condition_false(m, i) {
        m.advance();
        return Ok(());
    }
    let x = m.source(i.sreg1);
    let y = m.source(i.sreg2);
    registers(m, i, x, y)
}

/// Words of operations 18 to 26: addi to sexti.
fn immediate_word(m: &mut Machine, word: u32) -> Result<(), Fault>
    requires { (18 ≤ opcode_of (width_of (psr m.old)) word) × (opcode_of (width_of (psr m.old)) word ≤ 26) }
    ensures does { PerformsSeen (λ v. fetched_then v (Found word)) result m.old m.new }
    ensures kept { OnErr result (m.new ≡ m.old) }
{
    let i = Instruction::of_immediate(word, m.width());
    if condition_false(m, i) {
        m.advance();
        return Ok(());
    }
    let x = m.source(i.sreg1);
    immediates(m, i, x)
}

/// Words of operations 27 and 28, ld and st: told apart first, then decoded alike. st returns by itself: with an arm for each, the compiler makes one
/// code of both, and a step of loads and stores takes 4 to 9 instructions more.
fn access_word(m: &mut Machine, cells: &mut [u32], word: u32, op: u32) -> Result<(), Fault>
    requires { StackShown m.old × (op ≡ opcode_of (width_of (psr m.old)) word) × (27 ≤ op) × (op ≤ 28) }
    ensures does { PerformsStoring (λ v. fetched_then v (Found word)) result m.old cells.old m.new cells.new }
    ensures kept { OnErr result ((m.new ≡ m.old) × (cells.new ≡ cells.old)) }
{
    let is_load = op < 28;
    let i = Instruction::of_access(word, m.width());
    if condition_false(m, i) {
        m.advance();
        return Ok(());
    }
    let x = m.source(i.sreg1);
    if !is_load {
        return store(m, cells, i, x);
    }
    load(m, cells, i, x)
}

/// Words of operations 29 to 35: mov to lui. lli and lui are not there in 16-bit words.
fn move_word(m: &mut Machine, word: u32) -> Result<(), Fault>
    requires { (29 ≤ opcode_of (width_of (psr m.old)) word) × (opcode_of (width_of (psr m.old)) word ≤ 35) }
    ensures does { PerformsSeen (λ v. fetched_then v (Found word)) result m.old m.new }
    ensures kept { OnErr result (m.new ≡ m.old) }
{
    check_available(m, Operation::from_number(m.width().opcode(word)))?;
    let i = Instruction::of_move(word, m.width());
    if condition_false(m, i) {
        m.advance();
        return Ok(());
    }
    let x = m.source(i.sreg1);
    let y = m.source(i.sreg2);
    moves(m, i, x, y)
}

/// Words of operations 36 to 39: jmp, jal, jmpr, jalr, stop 13 in a slot.
fn jump_word(m: &mut Machine, word: u32) -> Result<(), Fault>
    requires { (m.old.position.pc < MOST_MEMORY) × (36 ≤ opcode_of (width_of (psr m.old)) word) × (opcode_of (width_of (psr m.old)) word ≤ 39) }
    ensures does { PerformsSeen (λ v. fetched_then v (Found word)) result m.old m.new }
    ensures kept { OnErr result (m.new ≡ m.old) }
{
    check_no_slot(m)?;
    let i = Instruction::of_jump(word, m.width());
    if condition_false(m, i) {
        m.advance();
        return Ok(());
    }
    let x = m.source(i.sreg1);
    jumps(m, i, x)
}

/// Words of operations 40 to 47: branches, never conditional, stop 13 in a slot.
fn branch_word(m: &mut Machine, word: u32) -> Result<(), Fault>
    requires { (m.old.position.pc < MOST_MEMORY) × (40 ≤ opcode_of (width_of (psr m.old)) word) × (opcode_of (width_of (psr m.old)) word ≤ 47) }
    ensures does { PerformsSeen (λ v. fetched_then v (Found word)) result m.old m.new }
    ensures kept { OnErr result (m.new ≡ m.old) }
{
    check_no_slot(m)?;
    let i = Instruction::of_jump(word, m.width());
    branches(m, i)
}

/// Words of operations 48 to 57: scall to rcon. After four of them nops must follow (Manual 4.6).
fn system_word(m: &mut Machine, program: &[u8], word: u32) -> Result<(), Fault>
    requires { (m.old.position.pc < MOST_MEMORY) × StackShown m.old × (48 ≤ opcode_of (width_of (psr m.old)) word) × (opcode_of (width_of (psr m.old)) word ≤ 57) }
    ensures does { PerformsIn program.now (λ v. fetched_then v (Found word)) result m.old m.new }
    ensures kept { OnErr result (m.new ≡ m.old) }
{
    let op = Operation::from_number(m.width().opcode(word));
    check_allowed(m, op)?;
    let i = Instruction::of_system(word, m.width());
    if condition_false(m, i) {
        m.advance();
        return Ok(());
    }
    check_nops(m, program, op.nops_after())?;
    let x = m.source(i.sreg1);
    system(m, i, x)
}

/// Words of operations 58 to 63: conb to exbfi. exbfi is not there in 16-bit words.
fn field_word(m: &mut Machine, word: u32) -> Result<(), Fault>
    requires { 58 ≤ opcode_of (width_of (psr m.old)) word }
    ensures does { PerformsSeen (λ v. fetched_then v (Found word)) result m.old m.new }
    ensures kept { OnErr result (m.new ≡ m.old) }
{
    check_available(m, Operation::from_number(m.width().opcode(word)))?;
    let i = Instruction::of_field(word, m.width());
    if condition_false(m, i) {
        m.advance();
        return Ok(());
    }
    let x = m.source(i.sreg1);
    let y = m.source(i.sreg2);
    fields(m, i, x, y);
    Ok(())
}

/// Words of the operations below ld, 0 to 26: nop to sexti.
fn lower_half(m: &mut Machine, word: u32, op: u32) -> Result<(), Fault>
    requires { (op ≡ opcode_of (width_of (psr m.old)) word) × (op < 27) }
    ensures does { PerformsSeen (λ v. fetched_then v (Found word)) result m.old m.new }
    ensures kept { OnErr result (m.new ≡ m.old) }
{
    match op {
        0 => {
            m.advance();
            Ok(())
        }
        1..=17 => register_word(m, word),
        _ => immediate_word(m, word),
    }
}

/// Words of the operations above st, 29 to 63: mov to exbfi.
fn upper_half(m: &mut Machine, program: &[u8], word: u32, op: u32) -> Result<(), Fault>
    requires { (m.old.position.pc < MOST_MEMORY) × StackShown m.old × (op ≡ opcode_of (width_of (psr m.old)) word) × (29 ≤ op) }
    ensures does { PerformsIn program.now (λ v. fetched_then v (Found word)) result m.old m.new }
    ensures kept { OnErr result (m.new ≡ m.old) }
{
    match op {
        29..=35 => move_word(m, word),
        36..=39 => jump_word(m, word),
        40..=47 => branch_word(m, word),
        48..=57 => system_word(m, program, word),
        _ => field_word(m, word),
    }
}

/// Carries out an instruction word, by the number of its operation. ld and st, which programs use most, are chosen before all others are tested;
/// the operations below and above them are told apart after that, each half in a chain of its own: in one chain the compiler takes the last groups
/// for rare.
fn execute_word(m: &mut Machine, program: &[u8], cells: &mut [u32], word: u32) -> Result<(), Fault>
    requires { (m.old.position.pc < MOST_MEMORY) × StackShown m.old }
    ensures does { StoresIn program.now (λ v. fetched_then v (Found word)) result m.old cells.old m.new cells.new }
    ensures kept { OnErr result ((m.new ≡ m.old) × (cells.new ≡ cells.old)) }
{
    let op = m.width().opcode(word);
    if op > 26 {
        if op > 28 {
            upper_half(m, program, word, op)
        } else {
            access_word(m, cells, word, op)
        }
    } else {
        lower_half(m, word, op)
    }
}

/// The next instruction, or the exception or the stop in its place: 05h, 00h or stop 11 of the fetch come first.
#[tactic(auto, using(crate::proofs::Reported::not_fetched, crate::proofs::Reported::word_fetched))]
fn next_instruction(m: &mut Machine, program: &[u8], cells: &mut [u32]) -> Result<(), Fault>
    requires { (length program.now ≤ MOST_MEMORY) × StackShown m.old }
    ensures does { StoresIn program.now decide result m.old cells.old m.new cells.new }
    ensures kept { OnErr result ((m.new ≡ m.old) × (cells.new ≡ cells.old)) }
{
    let word = fetch(m, program)?;
    execute_word(m, program, cells, word)
}

/// What an instruction answers: done, or its exception, which is entered; a stop is handed on, and changes nothing (Manual 4.9 and 4.10).
#[tactic(auto, unfolding(machine::specs::Apply::applying))]
pub fn take_exception(m: &mut Machine, answer: Result<(), Fault>) -> Result<(), Stop>
    ensures exact { (memory : Memory) → report_by result m.new memory ≡ taken answer m.old memory }
    ensures reported { Reported answer m.old result m.new }
{
    match answer {
        Ok(()) => Ok(()),
        Err(Fault::Exception(exception)) => {
            m.raise(exception);
            Ok(())
        }
        Err(Fault::Stop(stop)) => Err(stop),
    }
}

/// The next instruction, or its exception; or a stop, after which all is as before. `program` is at most 65,536 bytes, `cells` data memory.
pub fn execute(m: &mut Machine, program: &[u8], cells: &mut [u32]) -> Result<(), Stop>
    requires { (length program.now ≤ MOST_MEMORY) × StackShown m.old }
    ensures { report_by result m.new (memory_of cells.new) ≡ report_on (decide (view_of program.now m.old (memory_of cells.old))) m.old (memory_of cells.old) }
{
    let answer = next_instruction(m, program, cells);
    take_exception(m, answer)
}
