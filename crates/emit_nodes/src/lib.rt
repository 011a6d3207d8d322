//! The statements of a system's nodes, and those of its memories, its trigger, and its children's updates and resets.
#![tactic(auto)]

mod activity;
mod calls;
mod children;
mod lists;
mod nodes;
mod rows;
mod taken;

pub use calls::{counted, own_calls};
pub use children::{reset_code, update_code};
pub use lists::push_code;
pub use nodes::nodes_code;
pub use rows::{memory_code, trigger_code};
