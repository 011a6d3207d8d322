//! Laws of the file of a model over a trace: it is never stuck, and its names have what the run of the diagram has.
#![tactic(auto)]

mod files;

pub use files::files_are_right;
