//! A lawful program of C, with what a caller of its root gives and gets.
#![tactic(auto)]

mod checked;
mod places;

pub use checked::Checked;
pub use places::{procedure_named, root_fields};
