//! The program of a model: the codes of its systems put together, which is lawful, and is code for the model's diagram.
#![tactic(auto)]

mod counts;
mod emission;
mod emitted;
mod laws;

pub use emission::emit;
pub use emitted::Emitted;
pub use laws::assembled_is_code;
