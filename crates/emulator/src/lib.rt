//! The run call: the questions in order, the steps, the new image. And the image to start with, and images of the earlier layout carried over
//! (Manual 9).
#![tactic(auto, unfolding(crate::specs::Outcome::imaging, crate::specs::Reset::resetting, word::specs::Choice::choices))]

ghost use Rattle.std.specs.Prelude.{◌≡◌, true, ◌≤◌, length};
ghost use Rattle.machine.specs.Machine.{MOST_MEMORY, state_of, memory_of};
ghost use Rattle.machine.specs.Words.{SOURCES};
ghost use Rattle.machine.specs.Questions.{well_formed};
ghost use Rattle.machine.specs.Refusal.{refused_by};
ghost use Rattle.emulator.specs.Run.{result_from, run_end, end_of, first_no, call_answers, ending_number, reply_to, reply_of, outcome, run_call};
ghost use Rattle.emulator.specs.Outcome.{image_outcome, image_call};
ghost use Rattle.emulator.specs.Reset.{reset_call};
ghost use Rattle.emulator.specs.CarryOver.{carry_over_call};

use machine::questions::all_below;
use machine::{MOST_MEMORY, Machine, Refusal, Stop};

/// What ends the steps of a call (Manual 9.3).
#[derive(Clone, Copy, Debug, PartialEq, Eq)]
pub enum Ending {
    /// The limit is reached.
    Limit,
    /// A stop, which is no step.
    Stopped(Stop),
}

impl Ending {
    /// The number by which an answer names it: 0 for the limit, or that of the stop.
    pub fn number(self) -> u32
        ensures { result ≡ ending_number self }
    {
        match self {
            Ending::Limit => 0,
            Ending::Stopped(stop) => stop.number(),
        }
    }
}

/// What a call that is not refused answers: the steps done, and what ended them.
#[derive(Clone, Copy, Debug, PartialEq, Eq)]
pub struct Ran {
    pub steps: u32,
    pub ending: Ending,
}

/// The largest step limit.
pub const MOST_STEPS: u32 = 1_000_000;

// ---- the questions

/// Questions 6 to 8 in order: the first no. `room` is the bytes of the image buffer.
#[tactic(auto, unfolding(crate::specs::Run::first_no, word::specs::Choice::choices))]
fn ask_call(requests: &[u32], limit: u32, room: usize) -> Result<(), Refusal>
    ensures { refused_by result ≡ first_no 6 (call_answers requests.now limit room) }
{
    if !all_below(requests, 0x1000) {
        return Err(Refusal::RequestUnfit);
    }
    if limit > MOST_STEPS {
        return Err(Refusal::LimitTooLarge);
    }
    if room < image::LONGEST {
        return Err(Refusal::BufferTooShort);
    }
    Ok(())
}

// ---- the steps

/// At most `limit` steps, or those before a stop. A step past the list of requests has none.
#[tactic(auto, using(crate::proofs::Running::all_done))]
fn run_steps(
    m: &mut Machine,
    program: &[u8],
    cells: &mut [u32],
    requests: &[u32],
    limit: u32,
) -> Ran
    requires { (length program.now ≤ MOST_MEMORY) × (well_formed m.old ≡ true) }
    ensures { run_end (reply_to result) (state_of m.new (memory_of cells.new)) ≡ end_of (result_from program.now requests.now limit 0 (state_of m.old (memory_of cells.old))) }
{
    for done in 0..limit {
        let requested = requests.get(done as usize).copied().unwrap_or(0);
        if let Err(stop) = step::step(m, program, cells, requested) {
            return Ran {
                steps: done,
                ending: Ending::Stopped(stop),
            };
        }
    }
    Ran {
        steps: limit,
        ending: Ending::Limit,
    }
}

// ---- the call

/// Runs a machine image for at most `limit` steps: number k of `requests` is for step k, counted from 0, and a step past the list has none.
///
/// A refusal (Manual 9.2) leaves the cells and the buffer as they were; otherwise the cells are what the completed steps leave, and the new
/// image is at the buffer's front.
#[tactic(auto, using(crate::proofs::Asked::sizes_no, crate::proofs::Asked::sections_no, crate::proofs::Asked::machine_no, crate::proofs::Asked::call_no, crate::proofs::Asked::run_formed))]
pub fn run(
    program: &[u8],
    cells: &mut [u32],
    image: &[u8],
    requests: &[u32],
    limit: u32,
    buffer: &mut [u8],
) -> Result<Ran, Refusal>
    ensures { outcome (reply_of result) buffer.new (memory_of cells.new) ≡ run_call program.now image.now (memory_of cells.old) (record { requests = requests.now; limit = limit; buffer = buffer.old }) }
{
    if program.len() > MOST_MEMORY || cells.len() > MOST_MEMORY {
        return Err(Refusal::MemoryTooLong);
    }
    if !image::sections_fit(image) {
        return Err(Refusal::NotAnImage);
    }
    let mut machine = image::read(image);
    machine.check()?;
    ask_call(requests, limit, buffer.len())?;
    let ran = run_steps(&mut machine, program, cells, requests, limit);
    image::write(&machine, buffer);
    Ok(ran)
}

// ---- calls that only write an image

/// Writes a machine's image to the buffer's front; a refusal, of a buffer too short for the longest image, changes nothing.
fn write_image(machine: &Machine, buffer: &mut [u8]) -> Result<(), Refusal>
    requires { length machine.now.stack ≤ SOURCES }
    ensures { image_outcome (refused_by result) buffer.new ≡ image_call machine.now buffer.old }
{
    if buffer.len() < image::LONGEST {
        return Err(Refusal::BufferTooShort);
    }
    image::write(machine, buffer);
    Ok(())
}

/// Writes the image of the machine at reset to the buffer's front (Manual 9.4).
///
/// It is refused, and nothing is changed, when the buffer has fewer than 720 bytes.
pub fn reset(buffer: &mut [u8]) -> Result<(), Refusal>
    ensures { image_outcome (refused_by result) buffer.new ≡ reset_call buffer.old }
{
    write_image(&Machine::reset(), buffer)
}

/// Writes the machine of an image of the earlier layout, with dividers 0, to the buffer's front (Manual 9.4).
///
/// A refusal, 2 to 5 of the image or 8 of the buffer, changes nothing.
#[tactic(auto, using(crate::proofs::Carried::carried_2, crate::proofs::Carried::carried_no, crate::proofs::Carried::carried_yes, crate::proofs::Carried::carried_deep))]
pub fn carry_over(image: &[u8], buffer: &mut [u8]) -> Result<(), Refusal>
    ensures { image_outcome (refused_by result) buffer.new ≡ carry_over_call image.now buffer.old }
{
    if !image::earlier_fits(image) {
        return Err(Refusal::NotAnImage);
    }
    let earlier = image::read_earlier(image);
    earlier.check()?;
    write_image(&earlier, buffer)
}
