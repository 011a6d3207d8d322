//! What an instance of a model's file says of each of its systems.
#![tactic(auto)]

mod systems;

pub use systems::{systems_hold, whole_by_systems};
