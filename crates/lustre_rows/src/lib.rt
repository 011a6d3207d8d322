//! Laws of the node of a system: its equations hold where its names have what the run of the diagram has.
#![tactic(auto)]

mod children;
mod laws;
mod runs;

pub use children::child_equations_hold;
pub use laws::{activity_equations_hold, memory_equations_hold, value_equations_hold};
pub use runs::{rows_of_runs_are_computed, rows_of_runs_are_timed, system_equations_hold};
