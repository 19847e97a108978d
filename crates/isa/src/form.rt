//! Which operands an operation has, and how they are read.
#![tactic(auto)]

ghost use Rattle.std.specs.Prelude.{◌≡◌};

/// The operands of an operation, in the order in which they are written.
#[derive(Clone, Copy, Debug, PartialEq, Eq)]
pub enum Form {
    NoOperands,
    /// dreg, sreg1, sreg2.
    ThreeRegisters,
    /// The same, written dreg, sreg2, sreg1.
    ReversedRegisters,
    /// dreg, sreg1.
    TwoRegisters,
    /// dreg.
    Destination,
    /// sreg1.
    Source,
    /// creg, sreg1, sreg2.
    CompareRegisters,
    /// creg, sreg1, signed immediate.
    CompareImmediate,
    /// dreg, sreg1, signed immediate.
    SignedImmediate,
    /// dreg, sreg1, immediate filled with zeros.
    UnsignedImmediate,
    /// dreg, sreg1, so many of an immediate's lowest bits: five of shifts and sexti, two of exb, one of exh.
    Count(u32),
    /// dreg, sreg1, length, position.
    BitField,
    /// dreg, sreg1, signed immediate.
    Memory,
    /// dreg, sixteen bits.
    Halfword,
    /// signed immediate.
    Jump,
    /// creg, signed immediate.
    Branch,
    /// So many of the word's lowest bits: of bits 4..0 swm uses one, chrs two, trap all five.
    LowBits(u32),
}

/// What an operand is to its operation.
#[derive(Clone, Copy, Debug, PartialEq, Eq)]
pub enum Role {
    Dreg,
    Sreg1,
    Sreg2,
    Creg,
    Imm,
    /// Of exbfi: the immediate's first piece.
    Length,
    /// Of exbfi: the rest of the immediate.
    Position,
}

impl From<u8> for Role {
    ghost use Rattle.isa.specs.Letters.{role_of};

    ghost from_gives = { λ letter role. role ≡ role_of letter };

    /// The role that a letter stands for: 0, 1 and 2 for dreg, sreg1 and sreg2, c for creg, i for the immediate, l for a length, and any other
    /// for a position.
    #[tactic(auto, unfolding(crate::specs::Letters::role_of, word::specs::Choice::choices))]
    fn from(letter: u8) -> Self {
        match letter {
            b'0' => Role::Dreg,
            b'1' => Role::Sreg1,
            b'2' => Role::Sreg2,
            b'c' => Role::Creg,
            b'i' => Role::Imm,
            b'l' => Role::Length,
            _ => Role::Position,
        }
    }
}

/// How the k bits of an operand are read: as one of 2 ^ k numbers.
#[derive(Clone, Copy, Debug, PartialEq, Eq)]
pub enum Reading {
    /// From 0 on.
    Natural,
    /// From -2 ^ (k - 1) on.
    Signed,
    /// From 24 on: registers of 16-bit words.
    High,
}
