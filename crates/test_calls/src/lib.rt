//! Calls of the tool over hosts and sinks in memory, and whole models to call it on, for tests.
#![tactic(auto)]

mod answer;
mod faults;
mod files;
pub mod models;

pub use answer::{
    Answer, called, called_in_pieces, called_on, called_with, compiled, executed, words_of,
};
pub use faults::{End, Faults, NO_FAULT, NONE, called_so};
pub use files::{Files, model_file};
