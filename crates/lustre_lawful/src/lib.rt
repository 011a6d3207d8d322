//! The file of a model keeps the static rules: names differ, each is given once, and nodes come after those that they call.
#![tactic(auto)]

mod files;
mod names;

pub use files::model_files_are_lawful;
pub use names::{system_names_are_distinct, systems_give_their_names};
