//! The printer of C: a program to a text that is read as that program, with notes as comments.
#![tactic(auto)]

mod laws;
mod notes;
mod printing;

pub use laws::{
    comments_are_harmless, comments_are_utf8, notes_are_optional, notes_change_no_reading,
};
pub use notes::{Notes, StructNotes};
pub use printing::{print, print_with_notes};
