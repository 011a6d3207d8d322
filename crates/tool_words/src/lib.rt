//! The words of the program's command line. A test of its own says whether they ask for something, and words that do are
//! parsed by `clap`.
#![tactic(auto)]

mod commands;
mod lawful;
mod matches;
mod numbers;
mod program;
mod reading;

pub use commands::Command;
pub use lawful::is_lawful;
pub use reading::command;
