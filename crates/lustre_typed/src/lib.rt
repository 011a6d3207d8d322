//! The nodes of systems agree in types and can be written.
#![tactic(auto)]

mod laws;

pub use laws::systems_are_typed;
