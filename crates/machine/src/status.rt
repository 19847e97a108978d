//! The program status register by its bits.
#![tactic(auto, unfolding(crate::specs::Machine::states, isa::specs::Operation::width_by, word::specs::Choice::choices))]

ghost use Rattle.std.specs.Prelude.{◌≡◌, true, false};
ghost use Rattle.machine.specs.Machine.{SUPER, status_of, user_mode, wide_words, interrupts_enabled};
ghost use Rattle.machine.specs.Status.{is_wide, status_in, psr_of};

use isa::Width;
use word::has_flag;

/// The bits of PSR and SPSR (Manual 1.4). UM: user mode.
pub const UM: u32 = 0;

/// RSRD: registers are read from set 2.
pub const RSRD: u32 = 1;

/// RSWR: registers are written in set 2.
pub const RSWR: u32 = 2;

/// IL: instruction words have 32 bits.
pub const IL: u32 = 3;

/// IE: interrupts are enabled.
pub const IE: u32 = 4;

/// What the program status register says (Manual 1.4).
#[derive(Clone, Copy, Debug, PartialEq, Eq)]
pub struct Status {
    /// UM: user mode.
    pub user: bool,
    /// RSRD: registers are read from set 2.
    pub reads_set2: bool,
    /// RSWR: registers are written in set 2.
    pub writes_set2: bool,
    /// IL: the length of instruction words.
    pub width: Width,
    /// IE: interrupts are enabled.
    pub enabled: bool,
}

impl Status {
    /// The status of scall and of exceptions, 0Eh: super user, set 2, 32-bit words, interrupts disabled (Manual 3.2 and 4.9).
    pub fn super_user() -> Self
        ensures { psr_of result ≡ SUPER }
    {
        Status {
            user: false,
            reads_set2: true,
            writes_set2: true,
            width: Width::Wide,
            enabled: false,
        }
    }

    /// The status of user mode, which has set 1 (Manual 1.4).
    pub fn user(width: Width, enabled: bool) -> Self
        ensures { psr_of result ≡ status_of true false false (is_wide width) enabled }
    {
        Status {
            user: true,
            reads_set2: false,
            writes_set2: false,
            width,
            enabled,
        }
    }
}

impl From<u32> for Status {
    ghost from_gives = { λ psr status. status ≡ status_in psr };

    /// The status by its bits.
    fn from(psr: u32) -> Self {
        Status {
            user: has_flag(psr, UM),
            reads_set2: has_flag(psr, RSRD),
            writes_set2: has_flag(psr, RSWR),
            width: Width::from(has_flag(psr, IL)),
            enabled: has_flag(psr, IE),
        }
    }
}

impl From<Status> for u32 {
    ghost from_gives = { λ status psr. psr ≡ psr_of status };

    /// The bits of a status.
    fn from(status: Status) -> Self {
        let wide = status.width == Width::Wide;
        u32::from(status.user)
            + 2 * u32::from(status.reads_set2)
            + 4 * u32::from(status.writes_set2)
            + 8 * u32::from(wide)
            + 16 * u32::from(status.enabled)
    }
}
