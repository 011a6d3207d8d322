//! The trace that is generated for a model suits the inputs of that model.
#![tactic(auto)]

mod laws;

pub use laws::generated_traces_are_rows;
