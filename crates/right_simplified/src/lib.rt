//! Code for a diagram stays code for it when it is simplified.
#![tactic(auto)]

mod laws;

pub use laws::{simplified_is_code, text_of_simplified_is_right};
