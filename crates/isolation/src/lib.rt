//! Isolation (Manual 10) is a theorem about the run call's definition, so this crate has no code: specs/Isolation.antt states it,
//! proofs/Isolation.antt proves it.

#![tactic(auto)]
