//! The slots of the words that are reached in full.
#![tactic(auto, using(isa::proofs::Decoded::bytes_most))]

ghost use Rattle.std.specs.Prelude.{◌≡◌, [], ◌∷◌, ◌<◌, ◌≤◌, pos, length};
ghost use Rattle.machine.specs.Machine.{MOST_MEMORY};
ghost use Rattle.reach.specs.Successors.{words_among, next_addresses, slots};
ghost use Rattle.reach.specs.Search.{mark_all, with_slots_of, with_slots, MarksWords};

use crate::code::Code;
use crate::successors::{is_word, slot_words};
use isa::Width;

/// Marks an address where there is a word.
#[tactic(auto, using(crate::proofs::Words::inside, crate::proofs::Marks::mark_word, crate::proofs::Marks::mark_absent))]
fn mark(map: &mut [u8], width: Width, b: u32)
    ensures { map.new ≡ mark_all (words_among width (length map.old) (pos b ∷ [])) map.old }
{
    if is_word(width, map.len(), b) {
        map[b as usize] = 1;
    }
}

/// Marks the next words after an address, `count` of them, where they are words.
// The count is below 4 by `slot_words`.
#[tactic(auto, using(isa::proofs::Decoded::bytes_most, crate::proofs::Marks::next_marked, crate::proofs::Marks::none_left))]
fn mark_next(map: &mut [u8], width: Width, a: u32, count: u32)
    requires near { a ≤ MOST_MEMORY }
    requires few { count < 4 }
    ensures { map.new ≡ mark_all (words_among width (length map.old) (next_addresses width a count)) map.old }
{
    let mut b = a;
    for _k in 0..count {
        b += width.bytes();
        mark(map, width, b);
    }
}

/// Marks the slots of the word at an address, if it is marked.
#[tactic(auto, using(crate::proofs::Flows::slot_few, crate::proofs::Words::wholly), unfolding(word::specs::Choice::choices, crate::specs::Search::with_slots_of, crate::specs::Successors::slots, isa::specs::Decode::decode, isa::specs::Decode::assembled))]
fn mark_slots_at(code: Code<'_>, map: &mut [u8], a: usize)
    requires there { a < length map.old }
    requires sized { length map.old ≡ length code.program.now }
    requires words { MarksWords code.width (length code.program.now) map.old }
    ensures { map.new ≡ with_slots_of (slots code.entry.width code.entry.program.now) a map.old }
{
    if map[a] == 1 {
        mark_next(map, code.width, a as u32, slot_words(code.operation(a)));
    }
}

/// Marks the slots of what is marked, from the highest address down, so that a mark made here is never looked at.
#[tactic(auto, using(crate::proofs::Marks::slots_keep_words, crate::proofs::Marks::slots_next, crate::proofs::Marks::slots_none))]
pub fn mark_slots(code: Code<'_>, map: &mut [u8])
    requires sized { length map.old ≡ length code.program.now }
    requires words { MarksWords code.width (length code.program.now) map.old }
    ensures { map.new ≡ with_slots (slots code.entry.width code.entry.program.now) (length map.old) map.old }
{
    for a in (0..map.len()).rev() {
        mark_slots_at(code, map, a);
    }
}
