//! Which subsystems of a diagram are the same: all that their code is made from is equal but for the numbers of their rows.
#![tactic(auto)]

mod alike;
mod classes;
mod finding;
mod interior;
mod laws;
mod reading;
mod role;
mod signature;

pub use finding::firsts;
pub use laws::{firsts_are_one, inner_are_same, same_is_equivalence};
pub use role::Role;
