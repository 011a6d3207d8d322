//! The lines of traces and scripts, and the rows that the lines of a trace write.
#![tactic(auto)]

mod fields;
mod lines;
mod rows;
mod walk;

pub use fields::{field_number, next_field};
pub use lines::{LONGEST_LINE, Next, next_line};
pub use rows::{BadLine, BadWhy, read_row};
pub use walk::{last_row, next_row};
