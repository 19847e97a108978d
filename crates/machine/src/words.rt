//! The flat words of a machine, in the order of an image (Manual 8.1): a machine from words, and words from a machine.
#![tactic(auto)]

ghost use Rattle.std.specs.Prelude.{◌≡◌, ◌+◌, ◌≤◌, length, get_or, drop, reverse};
ghost use Rattle.codec.specs.Number.{put_at};
ghost use Rattle.machine.specs.Words.{SOURCES, DEPTH, ENTRIES, WORDS, section, entries_of, machine_of, Says, SaysRest};

use crate::control::OFFSETS;
use crate::machine::{Machine, TIMERS};
use crate::position::{PLACES, Position};
use crate::registers::{FLAGS, REGISTERS};
use crate::stack::{Entry, SOURCES, Stack};

/// Where register set 1 begins among the words; each section stands behind a word for its count (Manual 8.1).
pub const SET1: usize = 1;

/// Where register set 2 begins.
pub const SET2: usize = SET1 + REGISTERS + 1;

/// Where the condition registers begin.
pub const CONDITIONS: usize = SET2 + REGISTERS + 1;

/// Where the control block begins.
pub const CONTROL: usize = CONDITIONS + FLAGS + 1;

/// Where the position begins.
pub const POSITION: usize = CONTROL + OFFSETS + 1;

/// Where the count of stack entries stands; then the entries, four words each, the top last.
pub const DEPTH: usize = POSITION + PLACES;

pub const ENTRIES: usize = DEPTH + 1;

/// Where the dividers begin, behind the words for a full stack and a word for their count; then the number of all words.
pub const DIVIDERS: usize = ENTRIES + 4 * SOURCES + 1;

pub const WORDS: usize = DIVIDERS + TIMERS;

/// So many words from a place on.
#[tactic(auto, unfolding(crate::specs::Words::layout))]
fn section<const N: usize>(words: &[u32], start: usize) -> [u32; N]
    requires { start + N ≤ length words.now }
    ensures { result ≡ section start N words.now }
{
    let mut numbers = [0; N];
    numbers.copy_from_slice(&words[start..start + N]);
    numbers
}

/// The stack that words say; of a count above twelve its first twelve entries.
#[tactic(auto, unfolding(crate::specs::Words::entries_of))]
fn stack_in(words: &[u32; WORDS]) -> Stack
    ensures { get_or words.now DEPTH 0 ≤ SOURCES → result ≡ reverse (entries_of (get_or words.now DEPTH 0) (drop ENTRIES words.now)) }
{
    let depth = (words[DEPTH] as usize).min(SOURCES);
    let mut entries = [Entry::none(); SOURCES];
    for i in 0..depth {
        let at = ENTRIES + 4 * i;
        entries[i] = Entry {
            source: words[at],
            address: words[at + 1],
            psr: words[at + 2],
            c0: words[at + 3],
        };
    }
    Stack::of(entries, depth)
}

/// The words take a stack: its depth and its entries.
#[tactic(auto, unfolding(crate::specs::Words::entries_of))]
fn put_stack(words: &mut [u32; WORDS], stack: &Stack)
    ensures stack { (machine_of words.new).stack ≡ stack.now }
    ensures within { length stack.now ≤ SOURCES }
{
    words[DEPTH] = stack.len() as u32;
    let entries = stack.entries();
    for i in 0..entries.len() {
        let at = ENTRIES + 4 * i;
        let entry = entries[i];
        words[at] = entry.source;
        words[at + 1] = entry.address;
        words[at + 2] = entry.psr;
        words[at + 3] = entry.c0;
    }
}

/// Numbers take the place of the words from a place on.
fn put(words: &mut [u32; WORDS], start: usize, numbers: &[u32])
    requires { start + length numbers.now ≤ WORDS }
    ensures { words.new ≡ put_at words.old start numbers.now }
{
    words[start..start + numbers.len()].copy_from_slice(numbers);
}

impl Machine {
    /// The machine that words say; of a count of stack entries above twelve its first twelve, with all else as the words say. Made a part of its caller, it
    /// is written in place: a call with limit 0 takes 370 instructions less.
    #[tactic(auto, unfolding(crate::specs::Words::machine_of, crate::specs::Words::with_entries))]
    #[inline(always)]
    pub fn of_words(words: &[u32; WORDS]) -> Self
        ensures says { get_or words.now DEPTH 0 ≤ SOURCES → Says words.now result }
        ensures rest { SaysRest words.now result }
    {
        let set1 = section::<REGISTERS>(words, SET1);
        let set2 = section::<REGISTERS>(words, SET2);
        let conditions = section::<FLAGS>(words, CONDITIONS);
        let control = section::<OFFSETS>(words, CONTROL);
        let numbers = section::<PLACES>(words, POSITION);
        let stack = stack_in(words);
        let dividers = section::<TIMERS>(words, DIVIDERS);
        Machine {
            set1,
            set2,
            conditions,
            control,
            position: Position::from(numbers),
            stack,
            dividers,
        }
    }

    /// Words that say the machine, with 0 in those that say nothing of it.
    #[tactic(auto, unfolding(crate::specs::Words::machine_of))]
    pub fn words(&self) -> [u32; WORDS]
        ensures says { Says result self.now }
        ensures within { length self.now.stack ≤ SOURCES }
    {
        let mut words = [0; WORDS];
        put_stack(&mut words, &self.stack);
        put(&mut words, SET1, &self.set1);
        put(&mut words, SET2, &self.set2);
        put(&mut words, CONDITIONS, &self.conditions);
        put(&mut words, CONTROL, &self.control);
        put(&mut words, POSITION, &self.position.numbers());
        put(&mut words, DIVIDERS, &self.dividers);
        words
    }
}
