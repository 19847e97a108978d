//! The search for the words that are reached in full.
#![tactic(auto, unfolding(word::specs::Choice::choices, crate::specs::Search::visit, crate::specs::Search::visit_all))]

ghost use Rattle.std.specs.Prelude.{◌≡◌, true, ◌+◌, ◌<◌, ◌≤◌, All, IfSome, length, replicate};
ghost use Rattle.machine.specs.Machine.{MOST_MEMORY};
ghost use Rattle.reach.specs.Successors.{is_word, present, successors};
ghost use Rattle.reach.specs.Search.{visit, visit_all, searched};

use crate::code::Code;
use crate::queue::Queue;

/// Marks an address that is not marked yet, and queues it.
// Two functions say that the map fits: a type for it would be longer.
fn visit(map: &mut [u8], queue: &mut Queue, b: u32)
    requires there { b < length map.old }
    requires fits { length map.old ≤ MOST_MEMORY }
    requires room { length queue.old < 65540 }
    ensures room { length queue.new ≤ length queue.old + 1 }
    ensures exact { record { marks = map.new; found = queue.new } ≡ visit b (record { marks = map.old; found = queue.old }) }
{
    if map[b as usize] != 1 {
        map[b as usize] = 1;
        queue.push(b as u16);
    }
}

/// Visits those of three addresses that are there.
fn visit_all(map: &mut [u8], queue: &mut Queue, words: [Option<u32>; 3])
    requires there { All (λ o. IfSome o (λ b. b < length map.old)) words }
    requires fits { length map.old ≤ MOST_MEMORY }
    requires room { length queue.old + 3 ≤ 65540 }
    ensures { record { marks = map.new; found = queue.new } ≡ visit_all (present words) (record { marks = map.old; found = queue.old }) }
{
    for word in words {
        if let Some(b) = word {
            visit(map, queue, b);
        }
    }
}

/// Marks what is reached in full from a start address, in a map of zeros.
#[tactic(auto, using(crate::proofs::ProgramSearch::few, crate::proofs::ProgramSearch::next_word, crate::proofs::ProgramSearch::ended))]
pub fn search(code: Code<'_>, start: u32, map: &mut [u8])
    requires blank { map.old ≡ replicate (length code.program.now) 0 }
    requires word { is_word code.width (length code.program.now) start ≡ true }
    ensures { map.new ≡ (searched (successors code.entry.width code.entry.program.now) (length code.entry.program.now) start).marks }
{
    let mut queue = Queue::new();
    visit(map, &mut queue, start);
    let mut head = 0;
    // A `while`, since the queue grows as it is gone through.
    while head < queue.len() {
        let words = code.successors(u32::from(queue.at(head)));
        visit_all(map, &mut queue, words);
        head += 1;
    }
}
