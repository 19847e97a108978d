//! How a program goes on after an operation.

/// What follows an instruction.
#[derive(Clone, Copy, Debug, PartialEq, Eq)]
pub enum Flow {
    /// The next word.
    Straight,
    /// jmp: a target by immediate.
    ImmediateJump,
    /// jal: a target by immediate, and the link register.
    ImmediateLink,
    /// jmpr: a target in a register.
    RegisterJump,
    /// jalr: a target in a register, and the link register.
    RegisterLink,
    /// Operations 40 to 47: a target by immediate, or the next word.
    ConditionalBranch,
    /// scall: the system's entry.
    SystemCall,
    /// retu: the user program.
    UserReturn,
    /// reti: what was interrupted.
    InterruptReturn,
    /// swm: the next word but two, in the width that it names.
    WidthSwitch,
    /// trap: an exception's entry.
    TrapCall,
}
