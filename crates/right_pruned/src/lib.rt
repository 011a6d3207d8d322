//! Code for a diagram stays code for it without the pure functions that it does not need.
#![tactic(auto)]

mod laws;

pub use laws::{pruned_is_code, text_of_pruned_is_right};
