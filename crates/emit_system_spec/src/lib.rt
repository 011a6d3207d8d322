//! The code of one system, by its own rows, its functions and the order of its nodes: definitions, and programs
//! that run it. Each system of a model without a loop can have it.
#![tactic(auto)]

mod laws;
mod node;
mod source;

pub use laws::emitted_is_emittable;
pub use node::Place;
pub use source::Source;
