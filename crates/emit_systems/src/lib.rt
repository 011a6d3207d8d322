//! The code of each system of a model: its nodes in order, and its struct and procedures made from them.
#![tactic(auto)]

mod emit;
mod reading;
mod systems;

pub use emit::emit_system;
pub use systems::{Codes, codes_of};
