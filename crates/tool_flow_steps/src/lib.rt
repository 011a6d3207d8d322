//! What the command `flow` does, over any host and sink, up to the text of its ending.
#![tactic(auto)]

mod flowing;
mod reading;
mod tracing;

pub use flowing::flow_file;
