//! The machine image (Manual 8): question 2, reading and writing; and the earlier layout, without dividers. Questions 3 to 5 are asked of the machine
//! that is read.
#![tactic(auto)]

pub mod theorems;

ghost use Rattle.std.specs.Prelude.{◌≡◌, true, [], ◌∷◌, ◌≤◌, length, get_or};
ghost use Rattle.codec.specs.Number.{numbers_of, over};
ghost use Rattle.machine.specs.Words.{SOURCES, DEPTH, Says};
ghost use Rattle.image.specs.Image.{machine_with, machine_in, LAST, image_bytes, fits_to_stack, ToStack, question2, write_image};
ghost use Rattle.image.specs.Earlier.{earlier_in, earlier2};

use machine::words::{CONDITIONS, CONTROL, DEPTH, DIVIDERS, ENTRIES, POSITION, SET1, SET2, WORDS};
use machine::{Machine, control, position, registers, stack};

// Bytes of the last section: its count and the dividers.
const LAST: usize = 4 * (1 + machine::machine::TIMERS);

// Bytes of an image with no stack entries, in the earlier layout and now, and of the longest.
const EARLIER_SHORTEST: usize = 4 * ENTRIES;

pub const SHORTEST: usize = EARLIER_SHORTEST + LAST;

pub const LONGEST: usize = 4 * WORDS;

// The sections' counts.
const REGISTERS: u32 = registers::REGISTERS as u32;

const FLAGS: u32 = registers::FLAGS as u32;

const OFFSETS: u32 = control::OFFSETS as u32;

const PLACES: u32 = position::PLACES as u32;

const TIMERS: u32 = machine::machine::TIMERS as u32;

// Where they stand among an image's numbers, and among a machine's words, which have the same order up to the stack.
const SET1_COUNT: usize = SET1 - 1;

const SET2_COUNT: usize = SET2 - 1;

const CONDITIONS_COUNT: usize = CONDITIONS - 1;

const CONTROL_COUNT: usize = CONTROL - 1;

const POSITION_COUNT: usize = POSITION - 1;

// The bytes where they begin.
const SET1_BYTE: usize = 4 * SET1_COUNT;

const SET2_BYTE: usize = 4 * SET2_COUNT;

const CONDITIONS_BYTE: usize = 4 * CONDITIONS_COUNT;

const CONTROL_BYTE: usize = 4 * CONTROL_COUNT;

const POSITION_BYTE: usize = 4 * POSITION_COUNT;

const STACK_BYTE: usize = 4 * DEPTH;

// ---- question 2

// Whether an image has the sections up to the stack, with their counts, and so many bytes behind them.
#[tactic(auto, using(crate::proofs::Reading::sections_short, crate::proofs::Reading::sections_deep, crate::proofs::Reading::sections_counted))]
fn sections_to_stack(image: &[u8], behind: usize) -> bool
    requires { behind ≤ LAST }
    ensures { result ≡ fits_to_stack behind image.now }
{
    if image.len() < EARLIER_SHORTEST {
        return false;
    }
    let depth = codec::number_at(image, STACK_BYTE);
    if depth > stack::SOURCES as u32 {
        return false;
    }
    let bytes = image.len() == EARLIER_SHORTEST + 16 * (depth as usize) + behind;
    let set1 = codec::number_at(image, SET1_BYTE) == REGISTERS;
    let set2 = codec::number_at(image, SET2_BYTE) == REGISTERS;
    let conditions = codec::number_at(image, CONDITIONS_BYTE) == FLAGS;
    let control = codec::number_at(image, CONTROL_BYTE) == OFFSETS;
    let position = codec::number_at(image, POSITION_BYTE) == PLACES;
    bytes & set1 & set2 & conditions & control & position
}

/// Whether bytes have the length and the counts of an image of the present layout (question 2; Manual 8.3).
#[tactic(auto, using(crate::proofs::Reading::sections_long, crate::proofs::Reading::sections_last, crate::proofs::Reading::sections_none))]
pub fn sections_fit(image: &[u8]) -> bool
    ensures { result ≡ question2 image.now }
{
    if sections_to_stack(image, LAST) {
        codec::number_at(image, image.len() - LAST) == TIMERS
    } else {
        false
    }
}

/// The same of the earlier layout.
#[tactic(auto, unfolding(crate::specs::Earlier::earlier2))]
pub fn earlier_fits(image: &[u8]) -> bool
    ensures { result ≡ earlier2 image.now }
{
    sections_to_stack(image, 0)
}

// ---- reading

// The words of the machine that the sections up to the stack say, with these dividers. They are lent, so that no further copy is made.
#[tactic(auto, using(crate::proofs::Reading::few_numbers, crate::proofs::Reading::read_deep, crate::proofs::Reading::read_words))]
fn read_words(image: &[u8], words: &mut [u32; WORDS], first: u32, second: u32)
    requires { ToStack image.now }
    ensures said { Says words.new (machine_with (first ∷ second ∷ []) (numbers_of image.now)) }
    ensures deep { get_or words.new DEPTH 0 ≤ SOURCES }
{
    codec::read_numbers(image, words);
    words[DIVIDERS] = first;
    words[DIVIDERS + 1] = second;
}

/// The machine of an image of the present layout. Nothing is refused here: question 2 comes before.
#[tactic(auto, using(crate::proofs::Reading::question2_long, crate::proofs::Reading::question2_stack, crate::proofs::Reading::read_dividers))]
#[inline(always)]
pub fn read(image: &[u8]) -> Machine
    requires { question2 image.now ≡ true }
    ensures { result ≡ machine_in (numbers_of image.now) }
{
    let first = codec::number_at(image, image.len() - 8);
    let second = codec::number_at(image, image.len() - 4);
    let mut words = [0; WORDS];
    read_words(image, &mut words, first, second);
    Machine::of_words(&words)
}

/// The machine of an image of the earlier layout; its dividers are 0 (Manual 9.4).
#[tactic(auto, using(crate::proofs::Reading::earlier2_stack), unfolding(crate::specs::Earlier::earlier_in))]
pub fn read_earlier(image: &[u8]) -> Machine
    requires { earlier2 image.now ≡ true }
    ensures { result ≡ earlier_in (numbers_of image.now) }
{
    let mut words = [0; WORDS];
    read_words(image, &mut words, 0, 0);
    Machine::of_words(&words)
}

// ---- writing

/// Writes the machine's image to the front of a buffer with room for it; the further bytes stay. Its numbers are the machine's words up to the last
/// entry, with the sections' counts, which the words need not hold, and the last section behind them.
#[tactic(auto, using(crate::proofs::Writing::image_written))]
pub fn write(machine: &Machine, buffer: &mut [u8])
    requires { image_bytes (length machine.now.stack) ≤ length buffer.old }
    ensures { buffer.new ≡ over (write_image machine.now) buffer.old }
{
    let mut numbers = machine.words();
    let end = ENTRIES + 4 * machine.depth();
    numbers[SET1_COUNT] = REGISTERS;
    numbers[SET2_COUNT] = REGISTERS;
    numbers[CONDITIONS_COUNT] = FLAGS;
    numbers[CONTROL_COUNT] = OFFSETS;
    numbers[POSITION_COUNT] = PLACES;
    numbers[end] = TIMERS;
    numbers[end + 1] = machine.divider(0);
    numbers[end + 2] = machine.divider(1);
    codec::write_numbers(&numbers[..end + 3], buffer);
}
