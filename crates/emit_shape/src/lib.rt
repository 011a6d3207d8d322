//! The shape of a system's code: its struct and its procedures, what they read, and what they call.
#![tactic(auto)]

mod code;
mod laws;

pub use code::SystemCode;
pub use laws::moved_code_agrees;
