//! Laws of slots: their values solve the equations of a file exactly where the instances that they stand for do.
#![tactic(auto)]

mod laws;

pub use laws::{slots_solve, slots_tell};
