//! Finds loops of rows that need each other, and the inputs that each output needs.
#![tactic(auto)]

mod floor;
mod laws;
mod least;
mod least_loop;
mod least_row;
mod levels;
mod loops;
mod needs_graph;
mod outports;
mod search;
mod true_needs;

pub use laws::{loop_is_told_or_none, told_loop_is_one};
pub use loops::{find_in, find_loop};
pub use true_needs::needs_of;
