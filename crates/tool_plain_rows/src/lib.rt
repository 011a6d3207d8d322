//! Rows of numbers without types, as the flows of a file take them.
#![tactic(auto)]

mod rows;
mod walk;

pub use rows::read_plain_row;
pub use walk::{long_plain_row, next_plain_row};
