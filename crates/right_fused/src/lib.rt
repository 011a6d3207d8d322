//! Code for a diagram stays code for it where neighbouring `if`s of one test are one.
#![tactic(auto)]

mod laws;

pub use laws::fused_is_code;
