//! The node of a system in the file of Lustre of a model.
#![tactic(auto)]

mod call_count;
mod children;
mod controls;
mod equations;
mod named;
mod names;
mod node;
mod node_names;
mod own_rows;
mod parts;
mod reading;
mod row_names;
mod wires;

pub use equations::system_equations;
pub use named::{NamedSystem, named_system};
pub use node::system_node;
