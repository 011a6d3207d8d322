//! Which functions need a node, and the nodes that the same functions need.
#![tactic(auto)]

mod equal_needs;
mod groups;
mod laws;
mod reaching;

pub use equal_needs::classes;
pub use groups::{Groups, groups_of};
pub use laws::different_grow;
pub use reaching::clusters;
