//! A program as its words, each of which leads to others.
#![tactic(auto, using(crate::proofs::Visits::led_to))]

ghost use Rattle.std.specs.Prelude.{◌≡◌, ◌+◌, ◌≤◌, ◌<◌, length, All, IfSome};
ghost use Rattle.isa.specs.Decode.{word_bytes, word_at, opcode_of};
ghost use Rattle.isa.specs.Operation.{operation_of};
ghost use Rattle.machine.specs.Machine.{MOST_MEMORY};
ghost use Rattle.reach.specs.Successors.{present, successors};

use crate::successors::{next_of, resumption_of, target_of, word_among};
use isa::{Instruction, Operation, Width};

/// A program, no longer than program memory, read in one width.
#[derive(Clone, Copy)]
pub struct Code<'a> {
    pub program: &'a [u8],
    pub width: Width,
    ghost fits: { length program.now ≤ MOST_MEMORY },
}

impl<'a> Code<'a> {
    /// The words to which the word at an address leads in full: the next one, its target, and where it goes on.
    pub fn successors(self, a: u32) -> [Option<u32>; 3]
        requires { a + word_bytes self.width ≤ length self.program.now }
        ensures exact { present result ≡ successors self.entry.width self.entry.program.now a }
        ensures inside { All (λ o. IfSome o (λ b. b < length self.entry.program.now)) result }
    {
        let width = self.width;
        let size = self.program.len();
        let i = Instruction::decode(width.word_at(self.program, a as usize), width);
        [
            word_among(width, size, next_of(width, i, a)),
            word_among(width, size, target_of(width, i, a)),
            word_among(width, size, resumption_of(width, i, a)),
        ]
    }

    /// The operation of the word at an address.
    pub fn operation(self, a: usize) -> Operation
        requires { a + word_bytes self.width ≤ length self.program.now }
        ensures { result ≡ operation_of (opcode_of self.entry.width (word_at self.entry.width self.entry.program.now a)) }
    {
        Operation::from_number(self.width.opcode(self.width.word_at(self.program, a)))
    }
}
