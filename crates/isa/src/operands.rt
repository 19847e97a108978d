//! The operands of an instruction as a listing shows them: what each is, where it stands in a word, and its value.
#![tactic(auto, unfolding(crate::specs::Computed::instructions))]

ghost use Rattle.std.specs.Prelude.{◌≡◌, ◌+◌, ◌-◌, ◌≤◌, ◌<◌, Some, None};
ghost use Rattle.word.specs.Word.{word_of, bits◌to◌};
ghost use Rattle.isa.specs.Operation.{properties};
ghost use Rattle.isa.specs.Shown.{shown_value};
ghost use Rattle.isa.specs.Used.{register_reading, shown_role, roles_at};
ghost use Rattle.isa.specs.declared.width.Width.TheVariants.{Narrow, Wide};
ghost use Rattle.isa.specs.declared.form.Role.TheVariants.{Imm};
ghost use Rattle.isa.specs.Places.{no_bits, range_of, fields_at, operands_in, role_in, field_or_none, Counted};

use crate::form::{Form, Reading, Role};
use crate::instruction::Instruction;
use crate::operation::Operation;
use crate::width::Width;

/// Some neighbouring bits of a word.
#[derive(Clone, Copy)]
pub struct BitRange {
    /// The lowest of them.
    pub place: u32,
    /// How many they are.
    pub width: u32,
}

/// Where an operand stands in a word, in at most two pieces, and how its bits are read.
#[derive(Clone, Copy)]
pub struct OperandField {
    /// The piece with the operand's lowest bits; an operand that is absent has no bits, so that only 0 fits it.
    pub low: BitRange,
    /// The piece with the bits above them; not every operand has one.
    pub high: BitRange,
    pub reading: Reading,
}

/// An operand that an instruction has.
#[derive(Clone, Copy)]
pub struct Operand {
    pub role: Role,
    pub field: OperandField,
}

impl BitRange {
    /// No bits.
    const NONE: BitRange = BitRange { place: 0, width: 0 };

    /// Bits high to low.
    fn new(high: u32, low: u32) -> Self
        requires { (low ≤ high) × (high < 32) }
        ensures { result ≡ range_of (bits high to low) }
    {
        BitRange {
            place: low,
            width: high + 1 - low,
        }
    }
}

impl Reading {
    /// How the numbers of registers are read in words of a width.
    fn of_registers(width: Width) -> Self
        ensures { result ≡ register_reading width }
    {
        match width {
            Width::Narrow => Reading::High,
            Width::Wide => Reading::Natural,
        }
    }
}

impl Operand {
    /// An operand in neighbouring bits.
    fn bits(role: Role, reading: Reading, low: BitRange) -> Option<Self>
        ensures { result ≡ Some (record { role = role; field = record { low = low; high = range_of no_bits; reading = reading } }) }
    {
        Some(Operand {
            role,
            field: OperandField {
                low,
                high: BitRange::NONE,
                reading,
            },
        })
    }

    /// A register, whose number stands in neighbouring bits.
    fn register(role: Role, width: Width, number: BitRange) -> Option<Self>
        ensures { result ≡ Some (record { role = role; field = record { low = number; high = range_of no_bits; reading = register_reading width } }) }
    {
        Operand::bits(role, Reading::of_registers(width), number)
    }

    /// What an operand is, where there is one.
    fn role_of(operand: Option<Self>) -> Option<Role>
        ensures { result ≡ role_in operand }
    {
        operand.map(|operand| operand.role)
    }

    /// The immediate of nine bits in 32-bit words, in two pieces.
    fn nine_bits(reading: Reading) -> Option<Self>
        ensures { result ≡ Some (record { role = Imm; field = record { low = range_of (bits 4 to 0); high = range_of (bits 18 to 15); reading = reading } }) }
    {
        let low = BitRange::new(4, 0);
        let high = BitRange::new(18, 15);
        Some(Operand {
            role: Role::Imm,
            field: OperandField { low, high, reading },
        })
    }
}

impl Form {
    /// The operands of this form in 32-bit words, in the order in which a listing shows them.
    #[inline(always)]
    fn wide_operands(self) -> [Option<Operand>; 4]
        requires { Counted self }
        ensures { result ≡ operands_in Wide self }
    {
        let dreg = Operand::register(Role::Dreg, Width::Wide, BitRange::new(14, 10));
        let sreg1 = Operand::register(Role::Sreg1, Width::Wide, BitRange::new(9, 5));
        let sreg2 = Operand::register(Role::Sreg2, Width::Wide, BitRange::new(4, 0));
        let creg = Operand::register(Role::Creg, Width::Wide, BitRange::new(24, 22));
        let signed = Operand::nine_bits(Reading::Signed);
        let unsigned = Operand::nine_bits(Reading::Natural);
        match self {
            Form::NoOperands => [None, None, None, None],
            Form::ThreeRegisters => [dreg, sreg1, sreg2, None],
            Form::ReversedRegisters => [dreg, sreg2, sreg1, None],
            Form::TwoRegisters => [dreg, sreg1, None, None],
            Form::Destination => [dreg, None, None, None],
            Form::Source => [sreg1, None, None, None],
            Form::CompareRegisters => [creg, sreg1, sreg2, None],
            Form::CompareImmediate => [creg, sreg1, signed, None],
            Form::SignedImmediate | Form::Memory => [dreg, sreg1, signed, None],
            Form::UnsignedImmediate => [dreg, sreg1, unsigned, None],
            Form::Count(n) => {
                let count = Operand::bits(Role::Imm, Reading::Natural, BitRange::new(n - 1, 0));
                [dreg, sreg1, count, None]
            }
            Form::BitField => {
                let length = Operand::bits(Role::Length, Reading::Natural, BitRange::new(24, 19));
                let position = Operand::bits(Role::Position, Reading::Natural, BitRange::new(4, 0));
                [dreg, sreg1, length, position]
            }
            Form::Halfword => {
                let dreg = Operand::register(Role::Dreg, Width::Wide, BitRange::new(20, 16));
                let halfword = Operand::bits(Role::Imm, Reading::Natural, BitRange::new(15, 0));
                [dreg, halfword, None, None]
            }
            Form::Jump => {
                let offset = Operand::bits(Role::Imm, Reading::Signed, BitRange::new(24, 0));
                [offset, None, None, None]
            }
            Form::Branch => {
                let offset = Operand::bits(Role::Imm, Reading::Signed, BitRange::new(21, 0));
                [creg, offset, None, None]
            }
            Form::LowBits(n) => {
                let number = Operand::bits(Role::Imm, Reading::Natural, BitRange::new(n - 1, 0));
                [number, None, None, None]
            }
        }
    }

    /// The same in 16-bit words, where the first source is bits 5..3 and the target, which is the second source too, bits 2..0.
    #[inline(always)]
    fn narrow_operands(self) -> [Option<Operand>; 4]
        requires { Counted self }
        ensures { result ≡ operands_in Narrow self }
    {
        let dreg = Operand::register(Role::Dreg, Width::Narrow, BitRange::new(2, 0));
        let sreg1 = Operand::register(Role::Sreg1, Width::Narrow, BitRange::new(5, 3));
        match self {
            Form::NoOperands | Form::BitField | Form::Halfword => [None, None, None, None],
            Form::ThreeRegisters | Form::ReversedRegisters | Form::TwoRegisters => {
                [dreg, sreg1, None, None]
            }
            Form::Destination => [dreg, None, None, None],
            Form::Source => [sreg1, None, None, None],
            Form::CompareRegisters => {
                let sreg2 = Operand::register(Role::Sreg2, Width::Narrow, BitRange::new(2, 0));
                [sreg1, sreg2, None, None]
            }
            Form::CompareImmediate => {
                let sreg1 = Operand::register(Role::Sreg1, Width::Narrow, BitRange::new(2, 0));
                let immediate = Operand::bits(Role::Imm, Reading::Signed, BitRange::new(9, 3));
                [sreg1, immediate, None, None]
            }
            Form::SignedImmediate => {
                let immediate = Operand::bits(Role::Imm, Reading::Signed, BitRange::new(9, 3));
                [dreg, immediate, None, None]
            }
            Form::UnsignedImmediate => {
                let immediate = Operand::bits(Role::Imm, Reading::Natural, BitRange::new(9, 3));
                [dreg, immediate, None, None]
            }
            Form::Count(n) => {
                let count = Operand::bits(Role::Imm, Reading::Natural, BitRange::new(n + 2, 3));
                [dreg, count, None, None]
            }
            Form::Memory => {
                let offset = Operand::bits(Role::Imm, Reading::Signed, BitRange::new(9, 6));
                [dreg, sreg1, offset, None]
            }
            Form::Jump | Form::Branch => {
                let offset = Operand::bits(Role::Imm, Reading::Signed, BitRange::new(9, 0));
                [offset, None, None, None]
            }
            Form::LowBits(n) => {
                let number = Operand::bits(Role::Imm, Reading::Natural, BitRange::new(n - 1, 0));
                [number, None, None, None]
            }
        }
    }
}

impl Operation {
    /// Its operands in words of a width, in the order in which a listing shows them; of an operation that the width does not have, none.
    #[inline(always)]
    fn operands(self, width: Width) -> [Option<Operand>; 4]
        ensures { result ≡ operands_in width (properties self).form }
    {
        match width {
            Width::Narrow => self.form().narrow_operands(),
            Width::Wide => self.form().wide_operands(),
        }
    }

    /// What its operands are to it, in the order in which a listing shows them.
    // A part of its caller, with all that it calls: where the operands stand is then not computed.
    #[inline(always)]
    pub fn roles(self, width: Width) -> [Option<Role>; 4]
        ensures { result ≡ roles_at width self }
    {
        let operands = self.operands(width);
        [
            Operand::role_of(operands[0]),
            Operand::role_of(operands[1]),
            Operand::role_of(operands[2]),
            Operand::role_of(operands[3]),
        ]
    }

    /// What its operand k is to it, k from 0 on, where there is such an operand.
    #[tactic(auto, using(crate::proofs::Roles::role_within, crate::proofs::Roles::role_past))]
    pub fn operand(self, width: Width, k: usize) -> Option<Role>
        ensures { result ≡ shown_role width self k }
    {
        Operand::role_of(*self.operands(width).get(k)?)
    }

    /// Where its operands stand.
    // The four are written out: of `map` over the array the check did not find the proof.
    pub fn fields(self, width: Width) -> [OperandField; 4]
        ensures { result ≡ fields_at width self }
    {
        let operands = self.operands(width);
        [
            OperandField::of(operands[0]),
            OperandField::of(operands[1]),
            OperandField::of(operands[2]),
            OperandField::of(operands[3]),
        ]
    }
}

impl OperandField {
    /// The field of an operand, which has no bits where there is none.
    fn of(operand: Option<Operand>) -> Self
        ensures { result ≡ field_or_none operand }
    {
        let absent = OperandField {
            low: BitRange::NONE,
            high: BitRange::NONE,
            reading: Reading::Natural,
        };
        operand.map_or(absent, |operand| operand.field)
    }
}

impl Instruction {
    /// The value of an operand, as a word.
    pub fn operand(self, role: Role) -> u32
        ensures { result ≡ word_of 32 (shown_value self role) }
    {
        match role {
            Role::Dreg => self.dreg,
            Role::Sreg1 => self.sreg1,
            Role::Sreg2 => self.sreg2,
            Role::Creg => self.creg,
            Role::Imm => self.immediate.cast_unsigned(),
            Role::Length => self.immediate.cast_unsigned() / 32 % 64,
            Role::Position => self.immediate.cast_unsigned() % 32,
        }
    }
}
