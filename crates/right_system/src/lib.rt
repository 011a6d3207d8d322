//! One system: its code is right in all of these parts.
#![tactic(auto)]

mod laws;

pub use laws::emitted_code_is_ok;
