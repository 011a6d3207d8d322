//! The order of nodes in each group, of groups in each function, and what is left for the update.
#![tactic(auto)]

mod lists;
mod node_list;
mod schedule;

pub use node_list::NodeList;
pub use schedule::{Schedule, schedule_of};
