//! An instruction word taken apart: a function for each group of operations, and one for them all.
#![tactic(auto, unfolding(crate::specs::Computed::instructions))]

ghost use Rattle.std.specs.Prelude.{◌≡◌, ◌<◌, ◌≤◌, ◌^◌, pos};
ghost use Rattle.word.specs.Word.{signed_of};
ghost use Rattle.isa.specs.declared.width.Width.TheVariants.{Narrow, Wide};
ghost use Rattle.isa.specs.Operation.{operation_of, properties};
ghost use Rattle.isa.specs.Decode.{opcode_of, operands_of, decode};

use crate::width::Width;

/// The operands of an instruction; one that it does not have is 0, as `decode` says.
#[derive(Clone, Copy)]
pub struct Operands {
    pub dreg: u32,
    pub sreg1: u32,
    pub sreg2: u32,
    pub immediate: i32,
}

/// An instruction word taken apart.
#[derive(Clone, Copy)]
pub struct Instruction {
    /// The number of its operation, and no `Operation`: groups of operations are ranges of it.
    pub opcode: u32,
    /// It is done only where the condition holds of `creg`. No `Option` of a condition: `creg` is an operand of cmp and of branches, and `decode`
    /// says all three of every word.
    pub conditional: bool,
    pub creg: u32,
    pub condition: u32,
    pub dreg: u32,
    pub sreg1: u32,
    pub sreg2: u32,
    pub immediate: i32,
}

impl Operands {
    /// Operands that are registers.
    fn registers(dreg: u32, sreg1: u32, sreg2: u32) -> Self
        ensures { result ≡ record { dreg = dreg; sreg1 = sreg1; sreg2 = sreg2; immediate = pos 0 } }
    {
        Operands {
            dreg,
            sreg1,
            sreg2,
            immediate: 0,
        }
    }

    /// Operands with an immediate filled with zeros.
    fn unsigned(dreg: u32, sreg1: u32, n: u32) -> Self
        requires { n < 2 ^ 25 }
        ensures { result ≡ record { dreg = dreg; sreg1 = sreg1; sreg2 = 0; immediate = pos n } }
    {
        Operands {
            dreg,
            sreg1,
            sreg2: 0,
            immediate: n.cast_signed(),
        }
    }

    /// Operands with an immediate of k bits, its sign extended.
    fn signed(dreg: u32, sreg1: u32, n: u32, k: u32) -> Self
        requires { (0 < k) × (k ≤ 32) × (n < 2 ^ k) }
        ensures { result ≡ record { dreg = dreg; sreg1 = sreg1; sreg2 = 0; immediate = signed_of k n } }
    {
        Operands {
            dreg,
            sreg1,
            sreg2: 0,
            immediate: word::signed_field(n, k),
        }
    }
}

impl Instruction {
    /// The instruction of a 16-bit word with these operands: nothing is conditional, and only C0 is used.
    #[inline(always)]
    fn narrow(word: u32, o: Operands) -> Self
        requires { o ≡ operands_of Narrow (properties (operation_of (opcode_of Narrow word))).form word }
        ensures { result ≡ decode Narrow word }
    {
        Instruction {
            opcode: Width::Narrow.opcode(word),
            conditional: false,
            creg: 0,
            condition: 0,
            dreg: o.dreg,
            sreg1: o.sreg1,
            sreg2: o.sreg2,
            immediate: o.immediate,
        }
    }

    /// The instruction of a 32-bit word with these operands, whose operation may be conditional or may not.
    #[inline(always)]
    fn wide(word: u32, optional: bool, o: Operands) -> Self
        requires { (optional ≡ (properties (operation_of (opcode_of Wide word))).conditional) × (o ≡ operands_of Wide (properties (operation_of (opcode_of Wide word))).form word) }
        ensures { result ≡ decode Wide word }
    {
        Instruction {
            opcode: Width::Wide.opcode(word),
            conditional: optional & (word / 0x0200_0000 % 2 == 1),
            creg: word / 0x0040_0000 % 8,
            condition: word / 0x0008_0000 % 8,
            dreg: o.dreg,
            sreg1: o.sreg1,
            sreg2: o.sreg2,
            immediate: o.immediate,
        }
    }

    // A function for each group of operations: who knows a word's group decodes it by the group's few forms, which takes a step fewer instructions.
    // They are to be made a part of a step, whoever else calls them.
    // In a group an arm for each range of numbers. Equal arms stand apart: of `18 | 22` the check finds no proof.

    /// Operations 1 to 17, add to sext: a target and two sources; in 16-bit words the second source is the target.
    #[inline(always)]
    pub fn of_registers(word: u32, width: Width) -> Self
        requires { (1 ≤ opcode_of width word) × (opcode_of width word ≤ 17) }
        ensures { result ≡ decode width word }
    {
        match width {
            Width::Narrow => {
                let d = word % 8 + 24;
                Instruction::narrow(word, Operands::registers(d, word / 8 % 8 + 24, d))
            }
            Width::Wide => Instruction::wide(
                word,
                true,
                Operands::registers(word / 1024 % 32, word / 32 % 32, word % 32),
            ),
        }
    }

    /// Operations 18 to 26, addi to sexti: a target, a source and an immediate; in 16-bit words the source is the target.
    #[inline(always)]
    pub fn of_immediate(word: u32, width: Width) -> Self
        requires { (18 ≤ opcode_of width word) × (opcode_of width word ≤ 26) }
        ensures { result ≡ decode width word }
    {
        let op = width.opcode(word);
        match width {
            Width::Narrow => {
                let d = word % 8 + 24;
                let n = word / 8 % 128;
                match op {
                    18 => Instruction::narrow(word, Operands::signed(d, d, n, 7)),
                    19..=21 => Instruction::narrow(word, Operands::unsigned(d, d, n)),
                    22 => Instruction::narrow(word, Operands::signed(d, d, n, 7)),
                    _ => Instruction::narrow(word, Operands::unsigned(d, d, word / 8 % 32)),
                }
            }
            Width::Wide => {
                let d = word / 1024 % 32;
                let s = word / 32 % 32;
                let n = word / 0x8000 % 16 * 32 + word % 32;
                match op {
                    18 => Instruction::wide(word, true, Operands::signed(d, s, n, 9)),
                    19..=21 => Instruction::wide(word, true, Operands::unsigned(d, s, n)),
                    22 => Instruction::wide(word, true, Operands::signed(d, s, n, 9)),
                    _ => Instruction::wide(word, true, Operands::unsigned(d, s, word % 32)),
                }
            }
        }
    }

    /// Operations 27 and 28, ld and st: a register, the register of the address, and a signed offset.
    #[inline(always)]
    pub fn of_access(word: u32, width: Width) -> Self
        requires { (27 ≤ opcode_of width word) × (opcode_of width word ≤ 28) }
        ensures { result ≡ decode width word }
    {
        match width {
            Width::Narrow => {
                let n = word / 64 % 16;
                let o = Operands::signed(word % 8 + 24, word / 8 % 8 + 24, n, 4);
                Instruction::narrow(word, o)
            }
            Width::Wide => {
                let n = word / 0x8000 % 16 * 32 + word % 32;
                let o = Operands::signed(word / 1024 % 32, word / 32 % 32, n, 9);
                Instruction::wide(word, true, o)
            }
        }
    }

    /// Operations 29 to 35: mov, not, mulhi, cmp, cmpi, lli, lui; the last two have no operands in 16-bit words.
    #[inline(always)]
    pub fn of_move(word: u32, width: Width) -> Self
        requires { (29 ≤ opcode_of width word) × (opcode_of width word ≤ 35) }
        ensures { result ≡ decode width word }
    {
        let op = width.opcode(word);
        match width {
            Width::Narrow => {
                let d = word % 8 + 24;
                let s = word / 8 % 8 + 24;
                match op {
                    29..=30 => Instruction::narrow(word, Operands::registers(d, s, 0)),
                    31 => Instruction::narrow(word, Operands::registers(d, 0, 0)),
                    32 => Instruction::narrow(word, Operands::registers(0, s, d)),
                    33 => Instruction::narrow(word, Operands::signed(0, d, word / 8 % 128, 7)),
                    _ => Instruction::narrow(word, Operands::registers(0, 0, 0)),
                }
            }
            Width::Wide => {
                let d = word / 1024 % 32;
                let s = word / 32 % 32;
                let n = word / 0x8000 % 16 * 32 + word % 32;
                match op {
                    29..=30 => Instruction::wide(word, true, Operands::registers(d, s, 0)),
                    31 => Instruction::wide(word, true, Operands::registers(d, 0, 0)),
                    32 => Instruction::wide(word, false, Operands::registers(0, s, word % 32)),
                    33 => Instruction::wide(word, false, Operands::signed(0, s, n, 9)),
                    _ => {
                        let d = word / 0x1_0000 % 32;
                        Instruction::wide(word, false, Operands::unsigned(d, 0, word % 0x1_0000))
                    }
                }
            }
        }
    }

    /// Operations 36 to 47: jmp and jal with an immediate, jmpr and jalr with a register, and the branches.
    #[inline(always)]
    pub fn of_jump(word: u32, width: Width) -> Self
        requires { (36 ≤ opcode_of width word) × (opcode_of width word ≤ 47) }
        ensures { result ≡ decode width word }
    {
        let op = width.opcode(word);
        match width {
            Width::Narrow => match op {
                36..=37 => Instruction::narrow(word, Operands::signed(0, 0, word % 1024, 10)),
                38..=39 => {
                    Instruction::narrow(word, Operands::registers(0, word / 8 % 8 + 24, 0))
                }
                _ => Instruction::narrow(word, Operands::signed(0, 0, word % 1024, 10)),
            },
            Width::Wide => match op {
                36..=37 => {
                    Instruction::wide(word, false, Operands::signed(0, 0, word % 0x0200_0000, 25))
                }
                38..=39 => {
                    Instruction::wide(word, true, Operands::registers(0, word / 32 % 32, 0))
                }
                _ => Instruction::wide(word, false, Operands::signed(0, 0, word % 0x0040_0000, 22)),
            },
        }
    }

    /// Operations 48 to 57: scall to rcon.
    #[inline(always)]
    pub fn of_system(word: u32, width: Width) -> Self
        requires { (48 ≤ opcode_of width word) × (opcode_of width word ≤ 57) }
        ensures { result ≡ decode width word }
    {
        let op = width.opcode(word);
        match width {
            Width::Narrow => match op {
                48..=50 => Instruction::narrow(word, Operands::registers(0, 0, 0)),
                51 => Instruction::narrow(word, Operands::unsigned(0, 0, word % 4)),
                52..=53 => Instruction::narrow(word, Operands::registers(0, 0, 0)),
                54 => Instruction::narrow(word, Operands::unsigned(0, 0, word % 2)),
                55 => Instruction::narrow(word, Operands::unsigned(0, 0, word % 32)),
                56 => Instruction::narrow(word, Operands::registers(word % 8 + 24, 0, 0)),
                _ => Instruction::narrow(word, Operands::registers(0, word / 8 % 8 + 24, 0)),
            },
            Width::Wide => match op {
                48 => Instruction::wide(word, true, Operands::registers(0, 0, 0)),
                49..=50 => Instruction::wide(word, false, Operands::registers(0, 0, 0)),
                51 => Instruction::wide(word, false, Operands::unsigned(0, 0, word % 4)),
                52..=53 => Instruction::wide(word, false, Operands::registers(0, 0, 0)),
                54 => Instruction::wide(word, false, Operands::unsigned(0, 0, word % 2)),
                55 => Instruction::wide(word, false, Operands::unsigned(0, 0, word % 32)),
                56 => Instruction::wide(word, false, Operands::registers(word / 1024 % 32, 0, 0)),
                _ => Instruction::wide(word, false, Operands::registers(0, word / 32 % 32, 0)),
            },
        }
    }

    /// Operations 58 to 63, conb to exbfi. The immediate of exbfi is length × 32 + position, what exbf has in its second source; in 16-bit
    /// words it has no operands.
    #[inline(always)]
    pub fn of_field(word: u32, width: Width) -> Self
        requires { (58 ≤ opcode_of width word) × (opcode_of width word ≤ 63) }
        ensures { result ≡ decode width word }
    {
        let op = width.opcode(word);
        match width {
            Width::Narrow => {
                let d = word % 8 + 24;
                let s = word / 8 % 8 + 24;
                match op {
                    58 => Instruction::narrow(word, Operands::registers(d, s, d)),
                    59 => Instruction::narrow(word, Operands::registers(d, s, d)),
                    60 => Instruction::narrow(word, Operands::unsigned(d, d, word / 8 % 4)),
                    61 => Instruction::narrow(word, Operands::unsigned(d, d, word / 8 % 2)),
                    62 => Instruction::narrow(word, Operands::registers(d, s, d)),
                    _ => Instruction::narrow(word, Operands::registers(0, 0, 0)),
                }
            }
            Width::Wide => {
                let d = word / 1024 % 32;
                let s = word / 32 % 32;
                let n = word % 32;
                match op {
                    58 => Instruction::wide(word, true, Operands::registers(d, s, n)),
                    59 => Instruction::wide(word, true, Operands::registers(d, s, n)),
                    60 => Instruction::wide(word, true, Operands::unsigned(d, s, word % 4)),
                    61 => Instruction::wide(word, true, Operands::unsigned(d, s, word % 2)),
                    62 => Instruction::wide(word, true, Operands::registers(d, s, n)),
                    _ => {
                        let field = word / 0x0008_0000 % 64 * 32 + n;
                        Instruction::wide(word, false, Operands::unsigned(d, s, field))
                    }
                }
            }
        }
    }

    /// The instruction of a word, for callers that do not know the group of its operation.
    #[inline(never)]
    pub fn decode(word: u32, width: Width) -> Self
        ensures { result ≡ decode width word }
    {
        match width.opcode(word) {
            0 => {
                let o = Operands::registers(0, 0, 0);
                match width {
                    Width::Narrow => Instruction::narrow(word, o),
                    Width::Wide => Instruction::wide(word, false, o),
                }
            }
            1..=17 => Instruction::of_registers(word, width),
            18..=26 => Instruction::of_immediate(word, width),
            27..=28 => Instruction::of_access(word, width),
            29..=35 => Instruction::of_move(word, width),
            36..=47 => Instruction::of_jump(word, width),
            48..=57 => Instruction::of_system(word, width),
            _ => Instruction::of_field(word, width),
        }
    }
}
