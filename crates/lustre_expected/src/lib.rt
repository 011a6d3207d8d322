//! The values that the names of a model's file have at each tick of a run.
#![tactic(auto)]

mod laws;

pub use laws::expected_values;
