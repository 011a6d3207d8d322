//! What a model is compiled to, and when that is right for its table.
#![tactic(auto)]

mod compiled;

pub use compiled::Compiled;
