//! One system: its code starts and resets right.
#![tactic(auto)]

mod laws;

pub use laws::{emitted_code_resets, emitted_code_starts};
