//! One step: requests, an interrupt accepted or an instruction, and the timers' clock (Manual 4).
#![tactic(auto)]

ghost use Rattle.std.specs.Prelude.{◌≡◌, true, ◌≤◌, length};
ghost use Rattle.machine.specs.Apply.{report_by, reported};
ghost use Rattle.machine.specs.Machine.{MOST_MEMORY, memory_of, state_of};
ghost use Rattle.machine.specs.Questions.{well_formed};
ghost use Rattle.step.specs.Step.{unclocked, step};

mod interrupt;

use interrupt::{accept, accepted_source, add_requests};
use machine::control::INT_PEND;
use machine::{Machine, Stop};

/// A step with its requests, but without its clock; or a stop, which leaves everything as before it.
#[tactic(auto, using(crate::proofs::Formed::requested_formed, crate::proofs::Entered::stack_told, crate::proofs::Entered::sources_told, crate::proofs::Transitions::accepts, crate::proofs::Transitions::goes_on, crate::proofs::Transitions::stops), unfolding(crate::specs::Interrupt::with_requests, machine::specs::Control::with_pending))]
fn transition(m: &mut Machine, program: &[u8], cells: &mut [u32], requests: u32) -> Result<(), Stop>
    requires { (length program.now ≤ MOST_MEMORY) × (well_formed m.old ≡ true) }
    ensures { report_by result m.new (memory_of cells.new) ≡ reported (unclocked program.now (state_of m.old (memory_of cells.old)) requests) }
{
    let pending = m.control(INT_PEND);
    add_requests(m, requests);
    if let Some(source) = accepted_source(m, program) {
        accept(m, source);
        return Ok(());
    }
    let done = execute::execute(m, program, cells);
    if done.is_err() {
        m.set_control(INT_PEND, pending);
    }
    done
}

/// One step, or a stop: `requests` has bit s for source s, and `m` and `cells` take what the step leaves.
///
/// A stop (Manual 4.10) leaves everything as before it, and the timers are not clocked.
#[tactic(auto, using(crate::proofs::Transitions::stop_reported, crate::proofs::Transitions::step_reported))]
pub fn step(m: &mut Machine, program: &[u8], cells: &mut [u32], requests: u32) -> Result<(), Stop>
    requires { (length program.now ≤ MOST_MEMORY) × (well_formed m.old ≡ true) }
    ensures { report_by result m.new (memory_of cells.new) ≡ reported (step program.now (state_of m.old (memory_of cells.old)) requests) }
{
    transition(m, program, cells, requests)?;
    timer::clock(m);
    Ok(())
}
