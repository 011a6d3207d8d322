//! A program as it is printed: helpers inlined, then tests fused, then without the pure functions that it doesn't need.
#![tactic(auto)]

mod laws;
mod program;

pub use laws::{simplified_has_none_idle, simplified_is_lawful, simplified_refines};
pub use program::simplified;
