//! A program without the pure functions that it doesn't need: it does the same, it is lawful, and each function of it is called.
#![tactic(auto)]

mod laws;
mod marks;
mod places;
mod placing;
mod program;

pub use laws::{calls_mean_no_lines, pruned_has_none_idle, pruned_is_lawful, pruned_runs_alike};
pub use program::pruned;
