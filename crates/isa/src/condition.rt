//! Conditions, and the flags that they are tested against.
#![tactic(auto, unfolding(crate::specs::Condition::conditioning))]

ghost use Rattle.std.specs.Prelude.{◌≡◌};
ghost use Rattle.isa.specs.Condition.{condition_of, holds, name_of};

/// What a conditional instruction or a branch asks of a condition register, in the order of its number.
#[derive(Clone, Copy, Debug, PartialEq, Eq)]
pub enum Condition {
    Carry,
    EqualOrGreater,
    EqualOrLess,
    Equal,
    Greater,
    Less,
    NotEqual,
    NoCarry,
}

impl Condition {
    /// The condition of a number, for those who know it below 8, as a field's is; above 7 it is the last.
    // The one table from numbers.
    pub fn from_number(number: u32) -> Self
        ensures { result ≡ condition_of number }
    {
        match number {
            0 => Condition::Carry,
            1 => Condition::EqualOrGreater,
            2 => Condition::EqualOrLess,
            3 => Condition::Equal,
            4 => Condition::Greater,
            5 => Condition::Less,
            6 => Condition::NotEqual,
            _ => Condition::NoCarry,
        }
    }

    /// Its name, as ASCII: 1 to 3 characters.
    #[tactic(auto, unfolding(crate::specs::Condition::conditioning, crate::specs::Text::spelling))]
    pub fn name(self) -> &'static [u8]
        ensures { result.now ≡ name_of self }
    {
        match self {
            Condition::Carry => b"c",
            Condition::EqualOrGreater => b"egt",
            Condition::EqualOrLess => b"elt",
            Condition::Equal => b"eq",
            Condition::Greater => b"gt",
            Condition::Less => b"lt",
            Condition::NotEqual => b"ne",
            Condition::NoCarry => b"nc",
        }
    }

    /// Whether it holds of a condition register: Z in bit 2, N in bit 1, C in bit 0.
    pub fn holds(self, flags: u32) -> bool
        ensures { result ≡ holds self flags }
    {
        let carry = flags % 2 == 1;
        let negative = flags / 2 % 2 == 1;
        let zero = flags / 4 % 2 == 1;
        match self {
            Condition::Carry => carry,
            Condition::EqualOrGreater => !negative,
            Condition::EqualOrLess => negative || zero,
            Condition::Equal => zero,
            Condition::Greater => !negative && !zero,
            Condition::Less => negative,
            Condition::NotEqual => !zero,
            Condition::NoCarry => !carry,
        }
    }
}
