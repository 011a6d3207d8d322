//! A model's tree with the blocks of a library that its references name written out in their place.
#![tactic(auto)]

mod circles;
mod expansion;
mod given;
mod items;
mod laws;
mod library;
mod references;
mod refusal;
mod sizes;
mod writing;

pub use expansion::expand;
pub use laws::{expansions_are_one, no_reference_is_left, sizes_are_right};
pub use refusal::{LibraryFault, LibraryRefusal};
