//! What holds of all timers and of the clock: the contract of each function is the law, and it does nothing.
#![tactic(auto)]

ghost use Rattle.timer.specs.Theorems.{Disabled, MaximumKept, FirstTick, Ticks, IdleClock, ResetClock, ClockKeeps};

/// One timer (Manual 7.2).
#[tactic(auto, using(crate::proofs::Theorems::disabled, crate::proofs::Theorems::maximum_kept, crate::proofs::Theorems::ticks))]
pub fn timer_rules()
    ensures disabled { Disabled }
    ensures maximum { MaximumKept }
    ensures first { FirstTick }
    ensures ticks { Ticks }
{}

/// The clock of both timers (Manual 4.11 and 4.12).
#[tactic(auto, using(crate::proofs::Theorems::idle_clock, crate::proofs::Theorems::reset_clock, crate::proofs::Theorems::clock_keeps))]
pub fn clock_rules()
    ensures idle { IdleClock }
    ensures reset { ResetClock }
    ensures kept { ClockKeeps }
{}
