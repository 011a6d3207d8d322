//! Large models made by rule, and a trace for each: chains of small subsystems whose gains, signs and initial conditions
//! are drawn by a linear congruence.
#![tactic(auto)]

mod blocks;
mod draws;
mod groups;
mod model;
mod trace;

pub use model::generate;
pub use trace::generate_trace;
