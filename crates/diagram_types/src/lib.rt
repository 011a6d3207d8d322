//! Finds the types of a diagram's rows, or what is wrong with them.
#![tactic(auto)]

mod faults;
mod follow;
mod infer;
mod marks;
mod passes;
mod rows;
mod rules;

pub use infer::infer_types;
