//! The two register sets (Manual 1.4).
#![tactic(auto)]

ghost use Rattle.std.specs.Prelude.{◌≡◌};
ghost use Rattle.machine.specs.RegisterSet.{set_named};

/// Registers of a set, and condition registers (Manual 1.4).
pub const REGISTERS: usize = 32;

pub const FLAGS: usize = 8;

/// Special registers of set 2, and the link register of both sets (Manual 1.4).
pub const PSR: usize = 29;

pub const SPSR: usize = 30;

pub const LINK: usize = 31;

/// A set of 32 registers (Manual 1.4).
#[derive(Clone, Copy, Debug, PartialEq, Eq)]
pub enum RegisterSet {
    First,
    Second,
}

impl From<bool> for RegisterSet {
    ghost from_gives = { λ second set. set ≡ set_named second };

    /// The set that a status bit names: 1 is set 2.
    fn from(second: bool) -> Self {
        if second {
            RegisterSet::Second
        } else {
            RegisterSet::First
        }
    }
}
