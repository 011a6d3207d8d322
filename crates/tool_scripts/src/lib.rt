//! What the lines of a driver's script ask for: calls on one system.
#![tactic(auto)]

mod calls;
mod numbers;
mod walk;

pub use calls::{ReadCall, ScriptLine, ScriptWhy, read_call};
pub use walk::{BadCall, last_call, next_call};
