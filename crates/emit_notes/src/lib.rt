//! The notes on the code of a model: the blocks of its text that structs, fields and functions stand for.
#![tactic(auto)]

mod block_notes;
mod bytes;
mod functions;
mod labels;
mod laws;
mod lookups;
mod name_uses;
mod notes;
mod outports;
mod ports;
mod procedures;
mod reading;
mod sections;
mod systems;

pub use labels::{Label, Labels};
pub use laws::{notes_are_of_blocks, rows_have_blocks};
pub use notes::notes_for;
pub use reading::labels_of;
