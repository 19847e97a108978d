//! The machine: its register sets, condition registers, control block, position and interrupt stack.
#![tactic(auto)]

pub mod changes;
pub mod control;
pub mod fault;
pub mod machine;
pub mod position;
pub mod questions;
pub mod refusal;
pub mod registers;
pub mod service;
pub mod stack;
pub mod status;
pub mod theorems;
pub mod words;

pub use fault::{Exception, Fault, Stop};
pub use machine::{MOST_MEMORY, Machine};
pub use position::Position;
pub use refusal::Refusal;
pub use registers::RegisterSet;
pub use stack::{Entry, Stack};
pub use status::Status;
