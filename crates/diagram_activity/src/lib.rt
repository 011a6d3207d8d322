//! Whether a subsystem is active, what makes an event, and what a trigger remembers.
#![tactic(auto)]

mod guards;
mod memory;

pub use guards::{active, edge, next_memory, off};
pub use memory::TrigMem;
