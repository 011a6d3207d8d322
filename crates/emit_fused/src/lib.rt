//! Neighbouring `if`s of one test as one, and no factor or divisor that is 1.
#![tactic(auto)]

mod choice;
mod choosing;
mod fusing;
mod fusion;
mod joining;
mod keeping;
mod laws;
mod program;
mod reading;
mod sameness;
mod simplifying;
mod straight;
mod turning;

pub use laws::{fused_is_lawful, fused_refines, fusing_minds_no_lines};
pub use program::fused;
