//! The meaning of Lustre files: the value of each name of each instance at each tick, and where a tick is stuck.
#![tactic(auto)]

mod stuck;

pub use stuck::{LusStuck, LusWhy};
