//! Interrupts: requests, which source is accepted, when, and what its acceptance changes (Manual 4.1 and 4.2).
#![tactic(auto, unfolding(crate::specs::Interrupt::interrupting, crate::specs::Search::searching, word::specs::Choice::choices))]

ghost use Rattle.std.specs.Prelude.{◌≡◌, true, false, ◌<◌, IfSome};
ghost use Rattle.word.specs.Flags.{is_among};
ghost use Rattle.machine.specs.Machine.{Memory, psr, width_of};
ghost use Rattle.machine.specs.Questions.{well_formed};
ghost use Rattle.machine.specs.Stack.{sources_of};
ghost use Rattle.machine.specs.Status.{psr_of};
ghost use Rattle.execute.specs.View.{view_of};
ghost use Rattle.step.specs.Interrupt.{add_requests, priority, candidate, is_mulhi, may_accept, accepted_source, service_psr, entry_for, accept};
ghost use Rattle.step.specs.Theorems.{Accepted};
ghost use Rattle.step.specs.Search.{waiting, most_urgent, service_floor};

use isa::Width;
use machine::control::{
    COP_INT_PRI, EXT_INT_PRI, INT_MASK, INT_MODE_IL, INT_MODE_UM, INT_PEND, INT_SERV, INT_VECTORS,
};
use machine::{Entry, Machine, Position, Status};

/// How many interrupt sources there are.
const SOURCES: u32 = 12;

/// A priority number above all.
const ABOVE_ALL: u32 = 16;

/// The operation mulhi.
const MULHI: u32 = 31;

// ---- requests

/// The step's requests are added to INT_PEND (Manual 4.1).
#[tactic(auto, using(word::proofs::Bitwise::or_word), unfolding(machine::specs::Control::with_pending))]
pub fn add_requests(m: &mut Machine, requests: u32)
    ensures { m.new ≡ add_requests requests m.old }
{
    let flags = m.control(INT_PEND) | requests;
    m.set_control(INT_PEND, flags % 4096);
}

// ---- which source is accepted

/// The priority number of a source, 0 to 15: four coprocessors, then eight external ones.
fn priority(m: &Machine, n: u32) -> u32
    requires { n < SOURCES }
    ensures { result ≡ priority m.now n }
{
    if n < 4 {
        word::field(m.control(COP_INT_PRI), 4 * n, 4)
    } else {
        word::field(m.control(EXT_INT_PRI), 4 * (n - 4), 4)
    }
}

/// Of the sources whose flags are 1 the one with the smallest priority number below a bound; ties to the lower source.
#[tactic(auto, using(crate::proofs::Urgency::none_yet, crate::proofs::Urgency::bound_yet, crate::proofs::Urgency::none_flagged, crate::proofs::Urgency::taken, crate::proofs::Urgency::taken_number, crate::proofs::Urgency::passed, crate::proofs::Urgency::unflagged))]
fn most_urgent(m: &Machine, flags: u32, bound: u32) -> Option<u32>
    ensures exact { result ≡ most_urgent flags bound m.now 12 }
    ensures below { IfSome result (λ n. n < SOURCES) }
{
    if flags == 0 {
        return None;
    }
    let mut best = None;
    let mut floor = bound;
    for n in 0..SOURCES {
        if word::has_flag(flags, n) {
            let p = priority(m, n);
            if p < floor {
                best = Some(n);
                floor = p;
            }
        }
    }
    best
}

/// The smallest priority number in service; 16, above all, when nothing is.
fn service_floor(m: &Machine) -> u32
    ensures { result ≡ service_floor m.now }
{
    match most_urgent(m, m.control(INT_SERV), ABOVE_ALL) {
        Some(n) => priority(m, n),
        None => ABOVE_ALL,
    }
}

/// The flags of the sources that are pending and have INT_MASK 1.
#[tactic(auto, using(word::proofs::Bitwise::and_word), unfolding(crate::specs::Search::waiting))]
fn waiting(m: &Machine) -> u32
    ensures { result ≡ waiting m.now }
{
    m.control(INT_PEND) & m.control(INT_MASK)
}

/// The source to accept: pending, INT_MASK 1, a priority number below all in service; smallest number first, ties to the lower source (Manual 4.2).
#[tactic(auto, using(crate::proofs::Urgency::candidate_is))]
fn candidate(m: &Machine) -> Option<u32>
    requires { well_formed m.now ≡ true }
    ensures { result ≡ candidate m.now 12 }
{
    most_urgent(m, waiting(m), service_floor(m))
}

// ---- when one is accepted

/// Whether the next word passes the fetch tests, and is mulhi.
#[tactic(auto, using(crate::proofs::Waits::mulhi_fetched), unfolding(crate::specs::Interrupt::is_mulhi))]
fn next_is_mulhi(m: &Machine, program: &[u8]) -> bool
    ensures { (memory : Memory) → result ≡ is_mulhi (width_of (psr m.now)) (view_of program.now m.now memory).fetched }
{
    match execute::fetch(m, program) {
        Ok(word) => m.width().opcode(word) == MULHI,
        Err(_) => false,
    }
}

/// Whether IE is 1, no branch slot waits, and not a product is held and the next word is mulhi.
#[tactic(auto, using(crate::proofs::Waits::may_by))]
fn may_accept(m: &Machine, program: &[u8]) -> bool
    ensures { (memory : Memory) → result ≡ may_accept (view_of program.now m.now memory) }
{
    let position = m.position();
    m.is_enabled()
        && position.slot().is_none()
        && (position.product().is_none() || !next_is_mulhi(m, program))
}

/// The source accepted in this step, if one is.
#[tactic(auto, using(crate::proofs::Urgency::none_waits, crate::proofs::Accepted::candidate_fits), unfolding(crate::specs::Interrupt::accepted_source, word::specs::Choice::choices))]
pub fn accepted_source(m: &Machine, program: &[u8]) -> Option<u32>
    requires { well_formed m.now ≡ true }
    ensures fits { IfSome result (λ n. Accepted m.now n) }
    ensures exact { (memory : Memory) → result ≡ accepted_source (view_of program.now m.now memory) m.now }
{
    if waiting(m) == 0 || !may_accept(m, program) {
        None
    } else {
        candidate(m)
    }
}

// ---- acceptance

/// The status of a service routine: IE 0; IL and UM by INT_MODE_IL and INT_MODE_UM; RSRD and RSWR 1 for super user mode, else 0.
#[tactic(auto, using(machine::proofs::Statuses::wide_named), unfolding(crate::specs::Interrupt::service_psr))]
fn service_status(m: &Machine, n: u32) -> Status
    requires { n < SOURCES }
    ensures { psr_of result ≡ service_psr n m.now }
{
    let wide = word::has_flag(m.control(INT_MODE_IL), n);
    let user = word::has_flag(m.control(INT_MODE_UM), n);
    Status {
        user,
        reads_set2: !user,
        writes_set2: !user,
        width: Width::from(wide),
        enabled: false,
    }
}

/// PC, PSR and C0 as they go on the interrupt stack.
fn entry_for(m: &Machine, n: u32) -> Entry
    ensures { result ≡ entry_for n m.now }
{
    Entry {
        source: n,
        address: m.pc(),
        psr: m.psr(),
        c0: m.condition(0),
    }
}

/// A source is accepted: its flag moves from pending to in service, PC, PSR and C0 go on the interrupt stack, PC takes the vector.
#[tactic(auto, using(crate::proofs::Entered::still_served, crate::proofs::Entered::still_distinct), unfolding(crate::specs::Interrupt::accept, machine::specs::Control::with_pending, machine::specs::Machine::with_control))]
pub fn accept(m: &mut Machine, n: u32)
    requires formed { well_formed m.old ≡ true }
    requires source { n < SOURCES }
    requires new { is_among n (sources_of m.old.stack) ≡ false }
    ensures { m.new ≡ accept n m.old }
{
    let entry = entry_for(m, n);
    let status = service_status(m, n);
    let vector = m.control(INT_VECTORS + n as usize);
    let pending = word::without_flag(m.control(INT_PEND), n);
    m.set_control(INT_PEND, pending);
    m.push(entry);
    m.set_status(status);
    m.set_position(Position::at(vector));
}
