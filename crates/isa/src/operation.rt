//! The operations, by number, and what the table says of each.
#![tactic(auto, unfolding(crate::specs::Operation::table, crate::specs::Shown::showing))]

ghost use Rattle.std.specs.Prelude.{◌≡◌};
ghost use Rattle.isa.specs.Operation.{operation_of, numbered, properties, unavailable};
ghost use Rattle.isa.specs.Shown.{has_form};

use crate::flow::Flow;
use crate::form::Form;
use crate::width::Width;

/// What an instruction does, in the order of its number (COFFEE Core user manual (July 2007), section 6.2).
#[derive(Clone, Copy, Debug, PartialEq, Eq)]
pub enum Operation {
    Nop,
    Add,
    Addu,
    Sub,
    Subu,
    And,
    Or,
    Xor,
    Muls,
    Mulu,
    Mulus,
    Muls16,
    Mulu16,
    Mulus16,
    Sll,
    Srl,
    Sra,
    Sext,
    Addi,
    Addiu,
    Andi,
    Ori,
    Muli,
    Slli,
    Srli,
    Srai,
    Sexti,
    Ld,
    St,
    Mov,
    Not,
    Mulhi,
    Cmp,
    Cmpi,
    Lli,
    Lui,
    Jmp,
    Jal,
    Jmpr,
    Jalr,
    Bc,
    Begt,
    Belt,
    Beq,
    Bgt,
    Blt,
    Bne,
    Bnc,
    Scall,
    Retu,
    Reti,
    Chrs,
    Di,
    Ei,
    Swm,
    Trap,
    Scon,
    Rcon,
    Conb,
    Conh,
    Exb,
    Exh,
    Exbf,
    Exbfi,
}

/// A number that no operation has: 64 or more.
#[derive(Clone, Copy, Debug, PartialEq, Eq)]
pub struct UnknownOperation {
    pub number: u32,
}

impl TryFrom<u32> for Operation {
    type Error = UnknownOperation;

    ghost try_from_gives = { λ number result. result ≡ numbered number };

    /// The operation with a number.
    fn try_from(number: u32) -> Result<Self, UnknownOperation> {
        if number < 64 {
            Ok(Operation::from_number(number))
        } else {
            Err(UnknownOperation { number })
        }
    }
}

impl Operation {
    /// The operation of a number, for those who know it below 64, as a word's is; above 63 it is the last.
    // The one table from numbers.
    pub fn from_number(number: u32) -> Self
        ensures { result ≡ operation_of number }
    {
        match number {
            0 => Operation::Nop,
            1 => Operation::Add,
            2 => Operation::Addu,
            3 => Operation::Sub,
            4 => Operation::Subu,
            5 => Operation::And,
            6 => Operation::Or,
            7 => Operation::Xor,
            8 => Operation::Muls,
            9 => Operation::Mulu,
            10 => Operation::Mulus,
            11 => Operation::Muls16,
            12 => Operation::Mulu16,
            13 => Operation::Mulus16,
            14 => Operation::Sll,
            15 => Operation::Srl,
            16 => Operation::Sra,
            17 => Operation::Sext,
            18 => Operation::Addi,
            19 => Operation::Addiu,
            20 => Operation::Andi,
            21 => Operation::Ori,
            22 => Operation::Muli,
            23 => Operation::Slli,
            24 => Operation::Srli,
            25 => Operation::Srai,
            26 => Operation::Sexti,
            27 => Operation::Ld,
            28 => Operation::St,
            29 => Operation::Mov,
            30 => Operation::Not,
            31 => Operation::Mulhi,
            32 => Operation::Cmp,
            33 => Operation::Cmpi,
            34 => Operation::Lli,
            35 => Operation::Lui,
            36 => Operation::Jmp,
            37 => Operation::Jal,
            38 => Operation::Jmpr,
            39 => Operation::Jalr,
            40 => Operation::Bc,
            41 => Operation::Begt,
            42 => Operation::Belt,
            43 => Operation::Beq,
            44 => Operation::Bgt,
            45 => Operation::Blt,
            46 => Operation::Bne,
            47 => Operation::Bnc,
            48 => Operation::Scall,
            49 => Operation::Retu,
            50 => Operation::Reti,
            51 => Operation::Chrs,
            52 => Operation::Di,
            53 => Operation::Ei,
            54 => Operation::Swm,
            55 => Operation::Trap,
            56 => Operation::Scon,
            57 => Operation::Rcon,
            58 => Operation::Conb,
            59 => Operation::Conh,
            60 => Operation::Exb,
            61 => Operation::Exh,
            62 => Operation::Exbf,
            _ => Operation::Exbfi,
        }
    }

    /// Its number.
    pub fn number(self) -> u32
        ensures { result ≡ (properties self).number }
    {
        self as u32
    }

    /// Its mnemonic, as ASCII: 2 to 8 characters.
    #[tactic(auto, unfolding(crate::specs::Operation::table, crate::specs::Text::spelling))]
    pub fn mnemonic(self) -> &'static [u8]
        ensures { result.now ≡ (properties self).mnemonic }
    {
        match self {
            Operation::Nop => b"nop",
            Operation::Add => b"add",
            Operation::Addu => b"addu",
            Operation::Sub => b"sub",
            Operation::Subu => b"subu",
            Operation::And => b"and",
            Operation::Or => b"or",
            Operation::Xor => b"xor",
            Operation::Muls => b"muls",
            Operation::Mulu => b"mulu",
            Operation::Mulus => b"mulus",
            Operation::Muls16 => b"muls_16",
            Operation::Mulu16 => b"mulu_16",
            Operation::Mulus16 => b"mulus_16",
            Operation::Sll => b"sll",
            Operation::Srl => b"srl",
            Operation::Sra => b"sra",
            Operation::Sext => b"sext",
            Operation::Addi => b"addi",
            Operation::Addiu => b"addiu",
            Operation::Andi => b"andi",
            Operation::Ori => b"ori",
            Operation::Muli => b"muli",
            Operation::Slli => b"slli",
            Operation::Srli => b"srli",
            Operation::Srai => b"srai",
            Operation::Sexti => b"sexti",
            Operation::Ld => b"ld",
            Operation::St => b"st",
            Operation::Mov => b"mov",
            Operation::Not => b"not",
            Operation::Mulhi => b"mulhi",
            Operation::Cmp => b"cmp",
            Operation::Cmpi => b"cmpi",
            Operation::Lli => b"lli",
            Operation::Lui => b"lui",
            Operation::Jmp => b"jmp",
            Operation::Jal => b"jal",
            Operation::Jmpr => b"jmpr",
            Operation::Jalr => b"jalr",
            Operation::Bc => b"bc",
            Operation::Begt => b"begt",
            Operation::Belt => b"belt",
            Operation::Beq => b"beq",
            Operation::Bgt => b"bgt",
            Operation::Blt => b"blt",
            Operation::Bne => b"bne",
            Operation::Bnc => b"bnc",
            Operation::Scall => b"scall",
            Operation::Retu => b"retu",
            Operation::Reti => b"reti",
            Operation::Chrs => b"chrs",
            Operation::Di => b"di",
            Operation::Ei => b"ei",
            Operation::Swm => b"swm",
            Operation::Trap => b"trap",
            Operation::Scon => b"scon",
            Operation::Rcon => b"rcon",
            Operation::Conb => b"conb",
            Operation::Conh => b"conh",
            Operation::Exb => b"exb",
            Operation::Exh => b"exh",
            Operation::Exbf => b"exbf",
            Operation::Exbfi => b"exbfi",
        }
    }

    /// Whether it may be conditional; where it may not, bit 25 of its 32-bit words is ignored.
    // By ranges of numbers, here and below, as the rule says it.
    pub fn is_conditional(self) -> bool
        ensures { result ≡ (properties self).conditional }
    {
        match self.number() {
            1..=31 | 38..=39 | 48 | 58..=62 => true,
            _ => false,
        }
    }

    /// Whether it is a control transfer.
    pub fn is_transfer(self) -> bool
        ensures { result ≡ (properties self).transfer }
    {
        match self.number() {
            36..=50 | 54 => true,
            _ => false,
        }
    }

    /// How many nops must follow it.
    #[inline(always)]
    pub fn nops_after(self) -> u32
        ensures { result ≡ (properties self).nops }
    {
        match self {
            Operation::Reti => 3,
            Operation::Swm => 2,
            Operation::Scall | Operation::Retu => 1,
            _ => 0,
        }
    }

    /// The code of the exception where it may not be used: in words of this width, or in user mode.
    pub fn unavailable(self, width: Width, user: bool) -> Option<u32>
        ensures { result ≡ unavailable (properties self).availability width user }
    {
        match self {
            Operation::Lli | Operation::Lui | Operation::Exbfi => match width {
                Width::Narrow => Some(0x02),
                Width::Wide => None,
            },
            Operation::Retu | Operation::Chrs => { if user { Some(0x02) } else { None } }
            _ => None,
        }
    }

    /// Whether words of this width have it.
    pub fn has_form(self, width: Width) -> bool
        ensures { result ≡ has_form width self }
    {
        self.unavailable(width, false).is_none()
    }

    /// Its operands.
    pub fn form(self) -> Form
        ensures { result ≡ (properties self).form }
    {
        match self {
            Operation::Nop
            | Operation::Scall
            | Operation::Retu
            | Operation::Reti
            | Operation::Di
            | Operation::Ei => Form::NoOperands,
            Operation::Add
            | Operation::Addu
            | Operation::Sub
            | Operation::Subu
            | Operation::And
            | Operation::Or
            | Operation::Xor
            | Operation::Muls
            | Operation::Mulu
            | Operation::Mulus
            | Operation::Muls16
            | Operation::Mulu16
            | Operation::Mulus16
            | Operation::Sll
            | Operation::Srl
            | Operation::Sra
            | Operation::Sext
            | Operation::Conb
            | Operation::Exbf => Form::ThreeRegisters,
            Operation::Addi | Operation::Muli => Form::SignedImmediate,
            Operation::Addiu | Operation::Andi | Operation::Ori => Form::UnsignedImmediate,
            Operation::Slli | Operation::Srli | Operation::Srai | Operation::Sexti => Form::Count(
                5,
            ),
            Operation::Ld | Operation::St => Form::Memory,
            Operation::Mov | Operation::Not => Form::TwoRegisters,
            Operation::Mulhi | Operation::Scon => Form::Destination,
            Operation::Cmp => Form::CompareRegisters,
            Operation::Cmpi => Form::CompareImmediate,
            Operation::Lli | Operation::Lui => Form::Halfword,
            Operation::Jmp | Operation::Jal => Form::Jump,
            Operation::Jmpr | Operation::Jalr | Operation::Rcon => Form::Source,
            Operation::Bc
            | Operation::Begt
            | Operation::Belt
            | Operation::Beq
            | Operation::Bgt
            | Operation::Blt
            | Operation::Bne
            | Operation::Bnc => Form::Branch,
            Operation::Chrs => Form::LowBits(2),
            Operation::Swm => Form::LowBits(1),
            Operation::Trap => Form::LowBits(5),
            Operation::Conh => Form::ReversedRegisters,
            Operation::Exb => Form::Count(2),
            Operation::Exh => Form::Count(1),
            Operation::Exbfi => Form::BitField,
        }
    }

    /// How a program goes on after it.
    pub fn flow(self) -> Flow
        ensures { result ≡ (properties self).flow }
    {
        match self {
            Operation::Jmp => Flow::ImmediateJump,
            Operation::Jal => Flow::ImmediateLink,
            Operation::Jmpr => Flow::RegisterJump,
            Operation::Jalr => Flow::RegisterLink,
            Operation::Bc
            | Operation::Begt
            | Operation::Belt
            | Operation::Beq
            | Operation::Bgt
            | Operation::Blt
            | Operation::Bne
            | Operation::Bnc => Flow::ConditionalBranch,
            Operation::Scall => Flow::SystemCall,
            Operation::Retu => Flow::UserReturn,
            Operation::Reti => Flow::InterruptReturn,
            Operation::Swm => Flow::WidthSwitch,
            Operation::Trap => Flow::TrapCall,
            _ => Flow::Straight,
        }
    }
}
