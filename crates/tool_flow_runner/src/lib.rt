//! Runs the flows of a file of Lustre over a trace: one line of outputs for each row.
#![tactic(auto)]

mod faults;
mod line;
mod outcome;
mod trace_file;
mod walk;

pub use outcome::FlowFault;
pub use trace_file::flow_trace;
