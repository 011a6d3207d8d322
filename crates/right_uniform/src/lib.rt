//! The code of subsystems that are the same stays equal, but for the numbers of their rows, when a program is simplified.
#![tactic(auto)]

mod laws;

pub use laws::{fused_is_uniform, inlined_is_uniform, pruned_is_uniform, simplified_is_uniform};
