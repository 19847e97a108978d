//! What holds of the whole instruction set: the contract of each function is the law, and it does nothing.
#![tactic(auto)]

ghost use Rattle.isa.specs.Theorems.{Numbered, ConditionalIs, TransferIs, NopsAre, FlowIs, UnavailableIs, NarrowRegisters, FormIs, BranchNames, SignedIs, NarrowShown, BitFieldShown, ClearedRead, ClearedBit};

/// The table, of all operations at once: number, conditional, control transfer, nops, flow, availability, and the names of branches.
#[tactic(auto, using(crate::proofs::Rules::numbered, crate::proofs::Rules::conditional_is, crate::proofs::Rules::transfer_is, crate::proofs::Rules::nops_are, crate::proofs::Rules::flow_is, crate::proofs::Rules::unavailable_is, crate::proofs::Showing::branch_names))]
pub fn table_rules()
    ensures numbered { Numbered }
    ensures conditional { ConditionalIs }
    ensures transfer { TransferIs }
    ensures nops { NopsAre }
    ensures flow { FlowIs }
    ensures unavailable { UnavailableIs }
    ensures branches { BranchNames }
{}

/// What a word is read as, and what a listing shows of it: registers of 16-bit words, forms, signs of immediates, length and position of exbfi.
#[tactic(auto, using(crate::proofs::Decoded::narrow_registers, crate::proofs::Showing::form_is, crate::proofs::Showing::signed_is, crate::proofs::Showing::narrow_shown, crate::proofs::BitFields::bit_field_shown))]
pub fn reading_rules()
    ensures registers { NarrowRegisters }
    ensures form { FormIs }
    ensures signed { SignedIs }
    ensures shown { NarrowShown }
    ensures bit_field { BitFieldShown }
{}

/// Bits that an operation does not use are ignored.
#[tactic(auto, using(crate::proofs::Ignored::cleared_read, crate::proofs::Ignored::cleared_bit))]
pub fn ignored_bits()
    ensures read { ClearedRead }
    ensures bits { ClearedBit }
{}
