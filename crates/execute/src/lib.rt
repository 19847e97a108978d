//! The next instruction (Manual 4), carried out in place: its number chooses a group of operations once; the group's function decodes the word, makes
//! the tests that its operations have, and does what the operation does.
#![tactic(auto)]

mod arithmetic;
mod data;
mod field;
mod instruction;
mod jump;
mod memory;
mod mov;
mod program;
mod status;

pub use arithmetic::{immediates, registers};
pub use data::{Location, place};
pub use field::fields;
pub use instruction::{condition_false, execute, take_exception};
pub use jump::{branches, jumps};
pub use memory::{load, store, store_cell};
pub use mov::moves;
pub use program::{check_nops, closed, fetch, misaligned};
pub use status::system;
