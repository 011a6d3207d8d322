//! The search for the values that slots of a file of Lustre get at a tick.
#![tactic(auto)]

mod order;
mod search;
mod settling;

pub use search::Search;
