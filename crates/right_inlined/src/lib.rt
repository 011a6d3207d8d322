//! Code for a diagram stays code for it where the bodies of helpers are in place of their calls.
#![tactic(auto)]

mod laws;

pub use laws::inlined_is_code;
