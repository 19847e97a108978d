//! Why a call is refused.
#![tactic(auto)]

ghost use Rattle.std.specs.Prelude.{◌≡◌};
ghost use Rattle.machine.specs.Refusal.{number_of};

/// The first question of a call that is answered no (Manual 9.2).
#[derive(Clone, Copy, Debug, PartialEq, Eq)]
pub enum Refusal {
    /// A program of more than 65,536 bytes, or a data memory of more than 65,536 cells.
    MemoryTooLong,
    /// An image that has not exactly its sections and counts.
    NotAnImage,
    /// A number that its register cannot hold.
    NumberUnfit,
    /// A status with UM 1 whose RSRD and RSWR are not both 0.
    ModeUnfit,
    /// An interrupt stack that the control block does not show.
    StackUnfit,
    /// A request above the flags of the twelve sources.
    RequestUnfit,
    /// A limit above 1,000,000 steps.
    LimitTooLarge,
    /// A buffer shorter than the longest image.
    BufferTooShort,
    /// A program to be listed that is not made of whole words.
    PartOfWord,
    /// A text shorter than a line for each word.
    TextTooShort,
    /// An operation that has no such form in the width, or may not be conditional.
    FormUnknown,
    /// A condition or an operand that does not fit its bits.
    OperandUnfit,
    /// A start address at which there is no word.
    StartUnfit,
    /// A map shorter than the program.
    MapTooShort,
}

impl Refusal {
    /// The number by which an answer names it.
    pub fn number(self) -> u32
        ensures { result ≡ number_of self }
    {
        match self {
            Refusal::MemoryTooLong => 1,
            Refusal::NotAnImage => 2,
            Refusal::NumberUnfit => 3,
            Refusal::ModeUnfit => 4,
            Refusal::StackUnfit => 5,
            Refusal::RequestUnfit => 6,
            Refusal::LimitTooLarge => 7,
            Refusal::BufferTooShort => 8,
            Refusal::PartOfWord => 16,
            Refusal::TextTooShort => 17,
            Refusal::FormUnknown => 18,
            Refusal::OperandUnfit => 19,
            Refusal::StartUnfit => 27,
            Refusal::MapTooShort => 28,
        }
    }
}
