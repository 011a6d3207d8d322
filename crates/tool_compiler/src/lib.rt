//! Compiles a model to C: its text, or the refusal of the model.
#![tactic(auto)]

mod code;
mod compiler;
mod inputs;
mod text;

pub use code::compiled_from;
pub use compiler::compile;
