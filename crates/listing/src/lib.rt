//! The listing of a program: a line of 48 bytes for each instruction word.
//!
//! A line has the address, the word, the condition, the name and the operands, each in columns of its own, and ends with a newline
//! (Manual 11). Text is bytes of ASCII. Nothing here allocates.
#![tactic(auto)]

ghost use Rattle.std.specs.Prelude.{◌≡◌, [], ◌∷◌, ◌++◌, ◌+◌, ◌*◌, ◌%◌, ◌^◌, ◌≤◌, ◌<◌, length};
ghost use Rattle.std.specs.Int.Signed.{mag};
ghost use Rattle.word.specs.Word.{signed_of};
ghost use Rattle.codec.specs.Number.{put_at, over};
ghost use Rattle.isa.specs.declared.form.Role.{Role};
ghost use Rattle.isa.specs.Decode.{word_bytes};
ghost use Rattle.isa.specs.Shown.{shown_value};
ghost use Rattle.machine.specs.Machine.{MOST_MEMORY};
ghost use Rattle.machine.specs.Refusal.{refused_by};
ghost use Rattle.console.specs.Digits.{blank};
ghost use Rattle.listing.specs.Line.{integer_text, prefix_of, operand_text, shown_texts, name_text, condition_text, CONDITION_COLUMN, word_line};
ghost use Rattle.listing.specs.Parts.{spaced};
ghost use Rattle.listing.specs.Listing.{LINE_BYTES, lines_from, words_in, listed, listing_call};

use arrayvec::ArrayString;
use isa::{Condition, Instruction, Operation, Role, Width};
use itoa::Buffer;
use machine::Refusal;

/// Bytes of a line: 47 characters and a newline.
pub const LINE: usize = 48;

// Columns in which parts of a line begin; the address begins in column 0. Names are constant byte strings, copied to fixed columns.
const WORD: usize = 9;

const CONDITION: usize = 18;

const NAME: usize = 25;

const OPERANDS: usize = 34;

// Operands as text, each with a blank before it.
type OperandText = ArrayString<14>;

// Copies a part into a text, from a place on.
// A place in memory of the caller's, or in one line.
fn put(text: &mut [u8], at: usize, part: &[u8])
    requires { at + length part.now ≤ length text.old }
    ensures { text.new ≡ put_at text.old at part.now }
{
    text[at..at + part.len()].copy_from_slice(part);
}

// ---- parts of a line

// The name of an operation: its mnemonic, or `?` where words of the width have no such form.
// Operation and width stay two parameters: the operation's methods take the width.
#[tactic(auto, unfolding(crate::specs::Line::name_text, isa::specs::Text::bytes))]
fn name(operation: Operation, width: Width) -> &'static [u8]
    ensures { result.now ≡ name_text width operation }
{
    if operation.has_form(width) {
        operation.mnemonic()
    } else {
        b"?"
    }
}

// Appends a blank, and what stands before the number of an operand. With a constant text in each arm, and as a part of its caller, it is a store.
#[tactic(auto, unfolding(crate::specs::Line::prefix_of, isa::specs::Text::bytes))]
#[inline(always)]
fn push_prefix(text: &mut OperandText, role: Role)
    requires { length text.old.bytes + length (blank ∷ prefix_of role) ≤ 14 }
    ensures { text.new.bytes ≡ text.old.bytes ++ blank ∷ prefix_of role }
{
    match role {
        Role::Dreg | Role::Sreg1 | Role::Sreg2 => text.push_str(" R"),
        Role::Creg => text.push_str(" C"),
        Role::Imm | Role::Length | Role::Position => text.push_str(" "),
    }
}

// Appends a digit.
#[inline(always)]
fn push_digit(text: &mut OperandText, d: u32)
    requires { (d < 10) × (length text.old.bytes + 1 ≤ 14) }
    ensures { text.new.bytes ≡ text.old.bytes ++ (48 + d) ∷ [] }
{
    text.push(char::from(b'0' + d as u8));
}

// Appends the integer of a word in decimal. Registers and most immediates have one digit or two, which are stores: the library's text is copied by a call.
#[tactic(auto, using(crate::proofs::Texts::one_digit, crate::proofs::Texts::two_digits, crate::proofs::Texts::word_std, crate::proofs::Texts::text_rules))]
fn push_integer(text: &mut OperandText, n: u32)
    requires { length text.old.bytes + length (integer_text (signed_of 32 n)) ≤ 14 }
    ensures { text.new.bytes ≡ text.old.bytes ++ integer_text (signed_of 32 n) }
{
    if n < 10 {
        push_digit(text, n);
    } else if n < 100 {
        push_digit(text, n / 10);
        push_digit(text, n % 10);
    } else {
        text.push_str(Buffer::new().format(n.cast_signed()));
    }
}

// Appends an operand, with a blank before it.
#[tactic(auto, using(crate::proofs::Texts::operand_rules), unfolding(crate::specs::Line::operand_text))]
fn push_operand(text: &mut OperandText, i: Instruction, role: Role)
    requires { (length text.old.bytes + length (blank ∷ operand_text i role) ≤ 14) × (mag (shown_value i role) < 2 ^ 31) }
    ensures { text.new.bytes ≡ text.old.bytes ++ blank ∷ operand_text i role }
{
    push_prefix(text, role);
    push_integer(text, i.operand(role));
}

// Writes the condition of an instruction, if it is conditional: its name, and the condition register.
// `creg` is a field of the instruction, below 8 where it was decoded.
#[tactic(auto, using(crate::proofs::Texts::creg_small, crate::proofs::Texts::condition_short, crate::proofs::Texts::length_creg, crate::proofs::Texts::condition_written, crate::proofs::Texts::condition_none))]
fn put_condition(line: &mut [u8; LINE], i: Instruction)
    requires { i.creg < 8 }
    ensures { line.new ≡ put_at line.old CONDITION_COLUMN (condition_text i) }
{
    if i.conditional {
        let name = Condition::from_number(i.condition).name();
        let mut register = OperandText::new();
        push_operand(&mut register, i, Role::Creg);
        put(line, CONDITION, name);
        put(line, CONDITION + name.len(), register.as_bytes());
    }
}

// The operands of an instruction in words of a width.
#[tactic(auto, using(crate::proofs::Spaced::next_operand, crate::proofs::Spaced::no_operand, crate::proofs::Spaced::operand_room, crate::proofs::Spaced::all_operands, crate::proofs::Rooms::roles_few, isa::proofs::Roles::role_at), unfolding(crate::specs::Parts::spaced))]
fn operands(i: Instruction, width: Width) -> OperandText
    requires { (length (spaced (shown_texts width i)) ≤ 14) × ((r : Role) → mag (shown_value i r) < 2 ^ 31) }
    ensures { result.bytes ≡ spaced (shown_texts width i) }
{
    let roles = Operation::from_number(i.opcode).roles(width);
    let mut text = OperandText::new();
    for k in 0..4 {
        if let Some(role) = roles[k] {
            push_operand(&mut text, i, role);
        }
    }
    text
}

// ---- lines

// The line of a word at an address.
#[tactic(auto, using(isa::proofs::Decoded::bytes_most, crate::proofs::Lines::creg_below, crate::proofs::Texts::name_fits, crate::proofs::Rooms::operands_fit, crate::proofs::Rooms::value_fits))]
fn line_of(width: Width, address: u32, word: u32) -> [u8; LINE]
    ensures { result ≡ word_line width address word }
{
    let i = Instruction::decode(word, width);
    let mut line = *b"                                               \n";
    console::put_digits(&mut line, 0, 16, 8, address);
    console::put_digits(&mut line, WORD, 16, 2 * width.bytes() as usize, word);
    put_condition(&mut line, i);
    put(
        &mut line,
        NAME,
        name(Operation::from_number(i.opcode), width),
    );
    put(&mut line, OPERANDS - 1, operands(i, width).as_bytes());
    line
}

// Writes the lines of a program's words to the front of a text.
#[tactic(auto, using(isa::proofs::Decoded::bytes_positive, crate::proofs::Calls::line_written, crate::proofs::Calls::lines_written))]
fn put_lines(program: &[u8], width: Width, text: &mut [u8])
    requires { (length program.now ≤ MOST_MEMORY) × (LINE_BYTES * words_in width program.now ≤ length text.old) }
    ensures { text.new ≡ over (lines_from width program.now 0 (words_in width program.now)) text.old }
{
    let bytes = width.bytes() as usize;
    for n in 0..program.len() / bytes {
        let at = bytes * n;
        put(
            text,
            LINE * n,
            &line_of(width, at as u32, width.word_at(program, at)),
        );
    }
}

/// Writes the listing of a program, in words of a width, to the front of a text: `LINE` bytes for each word. The text is left as it was
/// where the program is longer than 65,536 bytes (`MemoryTooLong`), is not made of whole words (`PartOfWord`), or has more words than the
/// text has room for (`TextTooShort`); the first of these is answered.
// Program and width apart: any bytes may be given.
#[tactic(auto, using(isa::proofs::Decoded::bytes_positive), unfolding(crate::specs::Listing::listing_call))]
pub fn list(program: &[u8], width: Width, text: &mut [u8]) -> Result<(), Refusal>
    ensures { listed (refused_by result) text.new ≡ listing_call width program.now text.old }
{
    if machine::MOST_MEMORY < program.len() {
        return Err(Refusal::MemoryTooLong);
    }
    let bytes = width.bytes() as usize;
    if program.len() % bytes != 0 {
        return Err(Refusal::PartOfWord);
    }
    if text.len() < LINE * (program.len() / bytes) {
        return Err(Refusal::TextTooShort);
    }
    put_lines(program, width, text);
    Ok(())
}
