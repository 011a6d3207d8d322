//! The procedures of one system, and so its code.
#![tactic(auto)]

mod emit;
mod laws;
mod procedures;
mod update;

pub use emit::code_of_system;
pub use laws::emitted_agree;
