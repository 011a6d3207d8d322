//! Runs a trace on the C interpreter: one line of outputs for each row.
#![tactic(auto)]

mod faults;
mod line;
mod outcome;
mod outputs;
mod rows;
mod run;
mod runner;
mod tick;
mod trace_file;

pub use outcome::{Ran, RunFault, Totals};
pub use outputs::put_line;
pub use runner::run_bytes;
pub use trace_file::run_trace;
