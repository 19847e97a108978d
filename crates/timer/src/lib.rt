//! Timers and their clock (Manual 7).
#![tactic(auto, unfolding(crate::specs::Timer::ticking, crate::specs::Clock::clocking, machine::specs::Machine::states, machine::specs::Control::with_pending, word::specs::Choice::choices, word::specs::Word::field_of))]

pub mod rules;

ghost use Rattle.std.specs.Prelude.{◌≡◌, ◌<◌};
ghost use Rattle.machine.specs.Words.{TIMERS};
ghost use Rattle.timer.specs.Timer.{timer_of, ticked_to, clock_timer};
ghost use Rattle.timer.specs.Clock.{counted, leaving, notified, clock_one, clock};

use machine::Machine;
use machine::control::{INT_PEND, TMR_CONF, TMR0_CNT, TMR0_MAX_CNT};
use word::has_flag;

/// A timer (Manual 7.1).
#[derive(Clone, Copy)]
pub struct Timer {
    pub count: u32,
    pub maximum: u32,
    pub divider: u32,
}

/// A timer after a clock, and whether a tick left its count equal to the maximum.
#[derive(Clone, Copy)]
pub struct Ticked {
    pub timer: Timer,
    pub reached: bool,
}

// The bits of a timer's half of TMR_CONF.
const EN: u32 = 15;

const CONT: u32 = 14;

const GINT: u32 = 13;

const WDOG: u32 = 12;

// ---- one timer

impl Timer {
    /// The timer after a clock, by value.
    fn tick(self, conf: u32) -> Ticked
        ensures { result ≡ clock_timer conf self }
    {
        let mut next = self;
        if !has_flag(conf, EN) {
            next.divider = 0;
            return Ticked {
                timer: next,
                reached: false,
            };
        }
        if self.divider < conf % 256 {
            next.divider = self.divider + 1;
            return Ticked {
                timer: next,
                reached: false,
            };
        }
        next.divider = 0;
        if self.count == self.maximum {
            if has_flag(conf, CONT) {
                next.count = 0;
                Ticked {
                    timer: next,
                    reached: next.count == self.maximum,
                }
            } else {
                Ticked {
                    timer: next,
                    reached: false,
                }
            }
        } else {
            next.count = self.count.wrapping_add(1);
            Ticked {
                timer: next,
                reached: next.count == self.maximum,
            }
        }
    }

    /// The clock borrows a timer and updates it; whether a tick left its count equal to the maximum.
    fn clock(&mut self, conf: u32) -> bool
        ensures { ticked_to self.new result ≡ clock_timer conf self.old }
    {
        let ticked = self.tick(conf);
        *self = ticked.timer;
        ticked.reached
    }
}

// The same with plain numbers.
fn clock_numbers(count: u32, maximum: u32, divider: u32, conf: u32) -> Ticked
    ensures { result ≡ clock_timer conf (timer_of count maximum divider) }
{
    let mut timer = Timer {
        count,
        maximum,
        divider,
    };
    let reached = timer.clock(conf);
    Ticked { timer, reached }
}

// ---- the timers of a machine

// The clock of timer k by its configuration: its count and divider; whether a tick left the count equal to the maximum.
fn advance(m: &mut Machine, k: u32, conf: u32) -> bool
    requires { k < TIMERS }
    ensures { record { machine = m.new; reached = result } ≡ counted k conf m.old }
{
    let count = m.control(TMR0_CNT + 2 * k as usize);
    let maximum = m.control(TMR0_MAX_CNT + 2 * k as usize);
    let divider = m.divider(k);
    let ticked = clock_numbers(count, maximum, divider, conf);
    m.set_control(TMR0_CNT + 2 * k as usize, ticked.timer.count);
    m.set_divider(k, ticked.timer.divider);
    ticked.reached
}

// What a count that reached its maximum does: a request or nothing; or whether it resets the core, which the caller then does.
fn notify(m: &mut Machine, conf: u32) -> bool
    ensures { leaving m.new result ≡ notified conf m.old }
{
    if has_flag(conf, WDOG) {
        return true;
    }
    if has_flag(conf, GINT) {
        let source = 4 + word::field(conf, 8, 3);
        let pending = word::with_flag(m.control(INT_PEND), source);
        m.set_control(INT_PEND, pending);
    }
    false
}

// The clock of timer k; or whether it resets the core, which the caller then does.
fn clock_one(m: &mut Machine, k: u32) -> bool
    requires { k < TIMERS }
    ensures { leaving m.new result ≡ clock_one k m.old }
{
    let conf = word::field(m.control(TMR_CONF), 16 * k, 16);
    advance(m, k, conf) && notify(m, conf)
}

// One clock of both timers, one after the other.
fn clock_both(m: &mut Machine)
    ensures { m.new ≡ (clock m.old).machine }
{
    if clock_one(m, 0) || clock_one(m, 1) {
        *m = Machine::reset();
    }
}

/// One clock of both timers (Manual 4.11): with neither enabled, both dividers become 0. `clock_both` is called at two places, so that it is not
/// inlined into the loop of steps, where it would cost every step one or two instructions.
#[tactic(auto, using(crate::proofs::Theorems::idle_by_bits), unfolding(machine::specs::Machine::with_dividers))]
pub fn clock(m: &mut Machine)
    ensures { m.new ≡ (clock m.old).machine }
{
    let conf = m.control(TMR_CONF);
    if has_flag(conf, EN) {
        clock_both(m);
    } else if has_flag(conf, 16 + EN) {
        clock_both(m);
    } else {
        m.set_divider(0, 0);
        m.set_divider(1, 0);
    }
}
