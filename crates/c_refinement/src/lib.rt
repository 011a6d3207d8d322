//! When a program refines another: wherever the other isn't stuck it does the same, in no more steps.
#![tactic(auto)]

mod laws;

pub use laws::{bodies_refine, procedures_refine, refinements_compose, same_runs_refine};
