//! The whole tool: the call that main makes, over any host and sink.
#![tactic(auto)]

mod finishing;
mod running;

pub use running::{run_surely, run_tool};
