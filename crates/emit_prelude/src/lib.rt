//! The eight pure functions of the emitted C: six that round a quotient, and two that bring a number into a range.
#![tactic(auto)]

mod bodies;
mod expression;
mod function;
mod functions;
mod laws;

pub use functions::prelude;
pub use laws::whole_numbers_stay;
