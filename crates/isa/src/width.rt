//! The two lengths of instruction words, and what stands at the same place in every word of a length.
#![tactic(auto, unfolding(crate::specs::Operation::width_by, crate::specs::Computed::instructions))]

ghost use Rattle.std.specs.Prelude.{◌≡◌, ◌+◌, ◌≤◌, length};
ghost use Rattle.isa.specs.Operation.{width_by};
ghost use Rattle.isa.specs.Decode.{word_bytes, word_at, opcode_of};

/// The length of instruction words.
#[derive(Clone, Copy, Debug, PartialEq, Eq)]
pub enum Width {
    /// Words of 16 bits.
    Narrow,
    /// Words of 32 bits.
    Wide,
}

impl From<bool> for Width {
    ghost from_gives = { λ wide width. width ≡ width_by wide };

    /// The width that a status bit names: 1 is 32 bits.
    fn from(wide: bool) -> Self {
        if wide { Width::Wide } else { Width::Narrow }
    }
}

// An arm for each length, here and where words are read: they are two formats, and the width is known only when a program runs.
impl Width {
    /// The length of an instruction word in bytes.
    pub fn bytes(self) -> u32
        ensures { result ≡ word_bytes self }
    {
        match self {
            Width::Narrow => 2,
            Width::Wide => 4,
        }
    }

    /// The instruction word at an address of a program that has all its bytes, high byte first.
    pub fn word_at(self, program: &[u8], at: usize) -> u32
        requires { at + word_bytes self ≤ length program.now }
        ensures { result ≡ word_at self program.now at }
    {
        match self {
            // The definition's line.
            Width::Narrow => u32::from(program[at]) * 256 + u32::from(program[at + 1]),
            Width::Wide => codec::number_at(program, at),
        }
    }

    /// The number of a word's operation, below 64.
    pub fn opcode(self, word: u32) -> u32
        ensures { result ≡ opcode_of self word }
    {
        match self {
            Width::Narrow => word / 1024 % 64,
            Width::Wide => word / 0x0400_0000 % 64,
        }
    }
}
