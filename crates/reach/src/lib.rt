//! The words of a program that can be reached from a start address, in one width (Manual 13).
#![tactic(auto)]

mod code;
mod queue;
mod search;
mod slots;
mod successors;

ghost use Rattle.std.specs.Prelude.{◌≡◌, true, ◌≤◌, length, OnOk, OnErr};
ghost use Rattle.machine.specs.Refusal.{refused_by};
ghost use Rattle.reach.specs.Successors.{is_word};
ghost use Rattle.reach.specs.Call.{reached_map, mapped, reach_call};
ghost use Rattle.reach.specs.Theorems.{Mappable, Exact};

use crate::code::Code;
use crate::search::search;
use crate::slots::mark_slots;
use crate::successors::is_word;
use isa::Width;
use machine::Refusal;

/// Marks what is reached from a start address, in full and as a slot, and nothing else.
// The map stays beside the code: a struct that holds the loan needs a clause more at each method.
#[tactic(auto, using(crate::proofs::ProgramSearch::sound, crate::proofs::ProgramSearch::marks_words), unfolding(crate::specs::Call::reached_map))]
fn mark_reached(code: Code<'_>, start: u32, map: &mut [u8])
    requires sized { length map.old ≡ length code.program.now }
    requires word { is_word code.width (length code.program.now) start ≡ true }
    ensures { map.new ≡ reached_map code.entry.width code.entry.program.now start }
{
    map.fill(0);
    search(code, start, map);
    mark_slots(code, map);
}

/// Maps the words of a program that are reached from the word at `start`: writes 1 to the map's byte at the address of each, and 0 to the
/// others over the program's length; later bytes keep their values.
///
/// Refused, in this order, and with the map as it was: `MemoryTooLong` for a program of more than 65,536 bytes, `MapTooShort` for a map
/// shorter than the program, `StartUnfit` for a start that is misaligned or whose word is not wholly in the program.
// Program and width apart: any bytes may be given.
#[tactic(auto, using(crate::proofs::Calls::map_length, crate::proofs::Words::aligned, crate::proofs::Words::wholly, crate::proofs::Theorems::marked), unfolding(word::specs::Choice::choices, crate::specs::Call::reach_call))]
pub fn reach(program: &[u8], width: Width, start: u32, map: &mut [u8]) -> Result<(), Refusal>
    ensures exact { mapped (refused_by result) map.new ≡ reach_call width program.now start map.old }
    ensures asked { OnOk result (Mappable width program.now start map.old) }
    ensures marked { OnOk result (Exact width program.now start map.old map.new) }
    ensures kept { OnErr result (map.new ≡ map.old) }
{
    let size = program.len();
    if machine::MOST_MEMORY < size {
        return Err(Refusal::MemoryTooLong);
    }
    if map.len() < size {
        return Err(Refusal::MapTooShort);
    }
    if !is_word(width, size, start) {
        return Err(Refusal::StartUnfit);
    }
    mark_reached(Code { program, width }, start, &mut map[..size]);
    Ok(())
}
