//! What holds of all machines: the contract of each function is the law, and it does nothing.
#![tactic(auto)]

ghost use Rattle.machine.specs.Theorems.{FreePlaces, RegistersCount, KeptHolds, OnesDepth, SuperIs, KeptStatusFits, WorkedStatus, OtherStores};

/// The table of control registers, and what stores leave in them.
#[tactic(auto, using(crate::proofs::Table::registers_count, crate::proofs::Table::kept_holds, crate::proofs::Widths::other_stores))]
pub fn control_rules()
    ensures count { RegistersCount }
    ensures kept { KeptHolds }
    ensures others { OtherStores }
{}

/// The status of scall, of exceptions and at reset, and what RETI_PSR keeps.
#[tactic(auto, using(crate::proofs::Bits::super_is, crate::proofs::Bits::kept_status_fits, crate::proofs::Bits::worked_status))]
pub fn status_rules()
    ensures supervisor { SuperIs }
    ensures kept { KeptStatusFits }
    ensures examples { WorkedStatus }
{}

/// INT_SERV counts the stack's entries.
#[tactic(auto, using(crate::proofs::Shown::ones_depth))]
pub fn stack_rules()
    ensures { OnesDepth }
{}

/// Which words say nothing of a machine.
#[tactic(auto, using(crate::proofs::Free::free_places))]
pub fn word_rules()
    ensures { FreePlaces }
{}
