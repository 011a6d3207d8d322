//! The statements that start and reset a system.
#![tactic(auto)]

mod renewal;
mod stores;

pub use renewal::{reset_body, start_body};
pub use stores::counter_stores;
