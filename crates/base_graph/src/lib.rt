//! Graphs of what needs what: masks along paths, the one order, a cycle.
#![tactic(auto)]

mod chains;
mod cycles;
mod fault;
mod graph;
mod laws;
mod needs;
mod one_order;
mod ready;
mod unions;

pub use chains::{Chains, chains_of};
pub use fault::OrderFault;
pub use graph::Graph;
pub use laws::order_is_one;
pub use needs::order;
pub use unions::{masks, nodes};
