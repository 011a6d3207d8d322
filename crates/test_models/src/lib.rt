//! Writes texts of models (MDL), and tables of cases of them.
#![tactic(auto)]

mod cases;
mod models;
mod parts;
mod whole;
mod words;

pub use cases::{at_both_depths, filled, in_root, is_told, is_told_in_root, is_told_inside};
pub use models::{model_of, model_with, system_of};
pub use parts::push_parts;
pub use whole::{MADE, SAVED};
pub use words::push_lines;
