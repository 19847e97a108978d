//! The text of programs: numbers as digits, the step limit that the run program reads, the line that it prints.
//!
//! Text is bytes of ASCII. Nothing here allocates, and nothing fails: a text that says no limit is answered by `None`.
#![tactic(auto)]

ghost use Rattle.std.specs.Prelude.{◌≡◌, [], ◌∷◌, ◌++◌, ◌+◌, ◌<◌, ◌≤◌, length};
ghost use Rattle.std.specs.Char.{is_ascii_digit};
ghost use Rattle.std.specs.List.{list_all};
ghost use Rattle.codec.specs.Number.{put_at};
ghost use Rattle.console.specs.Digits.{newline, digit_of, digits_of, places_of, decimal, hex8};
ghost use Rattle.console.specs.Limit.{decimal_of, limit_of};
ghost use Rattle.console.specs.Line.{ran_text, refusal_text};

use arrayvec::ArrayString;
use itoa::Buffer;

// ---- limit.txt

// Whether all characters are decimal digits.
fn all_digits(text: &[u8]) -> bool
    ensures { result ≡ list_all is_ascii_digit text.now }
{
    text.iter().all(u8::is_ascii_digit)
}

// The number that 1 to 7 digits say. `parse` alone would take a sign and more digits.
#[tactic(auto, using(crate::proofs::Limits::refused_long, crate::proofs::Limits::refused_other, crate::proofs::Limits::digits_text, crate::proofs::Limits::parsed))]
fn decimal(text: &[u8]) -> Option<u32>
    ensures { result ≡ decimal_of text.now }
{
    if 7 < text.len() || !all_digits(text) {
        return None;
    }
    str::from_utf8(text).ok()?.parse().ok()
}

/// The step limit that a text says, 1 to 7 decimal digits with an optional newline after them. `None` for any other text.
pub fn limit_of(text: &[u8]) -> Option<u32>
    ensures { result ≡ limit_of text.now }
{
    decimal(text.strip_suffix(b"\n").unwrap_or(text))
}

// ---- numbers

// The character of a digit below 16.
// Hexadecimal without a heap: `write!` can fail.
#[tactic(auto, unfolding(crate::specs::Digits::digit_of))]
fn digit(d: u32) -> u8
    requires { d < 16 }
    ensures { result ≡ digit_of d }
{
    b"0123456789ABCDEF"[d as usize]
}

/// How many decimal digits a number has, from 1 to 10.
#[tactic(auto, using(crate::proofs::Digits::places_std))]
pub fn places(n: u32) -> usize
    ensures { result ≡ places_of n }
{
    Buffer::new().format(n).len()
}

/// Writes the `count` lowest digits of a number in a base of at most 16, from a place of the line on, the highest first.
// The line is the caller's, and the base any of at most 16.
#[tactic(auto, using(crate::proofs::Digits::digit_more, crate::proofs::Digits::digits_done))]
pub fn put_digits(line: &mut [u8], at: usize, base: u32, count: usize, n: u32)
    requires { ((1 ≤ base) × (base ≤ 16)) × (at + count ≤ length line.old) }
    ensures { line.new ≡ put_at line.old at (digits_of base count n) }
{
    let mut rest = n;
    for i in (0..count).rev() {
        line[at + i] = digit(rest % base);
        rest /= base;
    }
}

/// The same, and the character `end` after them.
#[tactic(auto, using(crate::proofs::Digits::put_at_last, crate::proofs::Digits::length_digits_of))]
pub fn put_ended(line: &mut [u8], at: usize, base: u32, count: usize, n: u32, end: u8)
    requires { ((1 ≤ base) × (base ≤ 16)) × (at + count + 1 ≤ length line.old) }
    ensures { line.new ≡ put_at line.old at (digits_of base count n ++ end ∷ []) }
{
    line[at + count] = end;
    put_digits(line, at, base, count, n);
}

// ---- the line

/// A line of text in fixed memory. The longest has 31 characters: two numbers of 10 digits, 8 hex digits, two blanks and a newline.
pub type Line = ArrayString<31>;

// Appends a number in decimal, and what stands after it.
#[tactic(auto, using(crate::proofs::Digits::decimal_std))]
fn push_decimal(line: &mut Line, n: u32, end: &str)
    requires { length line.old.bytes + 10 + length end.now ≤ 31 }
    ensures text { line.new.bytes ≡ line.old.bytes ++ decimal n ++ end.now }
    ensures short { length line.new.bytes ≤ length line.old.bytes + 10 + length end.now }
{
    line.push_str(Buffer::new().format(n));
    line.push_str(end);
}

// Appends a number in eight hex digits, and a newline.
fn push_hex_line(line: &mut Line, n: u32)
    requires { length line.old.bytes + 9 ≤ 31 }
    ensures { line.new.bytes ≡ line.old.bytes ++ hex8 n ++ newline ∷ [] }
{
    let mut text = [0; 9];
    put_ended(&mut text, 0, 16, 8, n, b'\n');
    line.push_str(str::from_utf8(&text).unwrap());
}

/// The line for a call that ran: steps and ending in decimal, PC in eight hex digits, single blanks between and a newline after.
#[tactic(auto, unfolding(crate::specs::Line::ran_text))]
pub fn ran_line(steps: u32, ending: u32, pc: u32) -> Line
    ensures { result.bytes ≡ ran_text steps ending pc }
{
    let mut line = Line::new();
    push_decimal(&mut line, steps, " ");
    push_decimal(&mut line, ending, " ");
    push_hex_line(&mut line, pc);
    line
}

/// The line for a refusal: its number in decimal and a newline.
#[tactic(auto, unfolding(crate::specs::Line::refusal_text))]
pub fn refusal_line(n: u32) -> Line
    ensures { result.bytes ≡ refusal_text n }
{
    let mut line = Line::new();
    push_decimal(&mut line, n, "\n");
    line
}
