//! The systems of a model, and its blocks in the order of the file with what each says, or the first error.
#![tactic(auto)]

mod blocks;
mod file;
mod laws;
mod lines;
mod numbers;
mod outline;
mod outlines;
mod placed;
mod system;

pub use blocks::read_model;
pub use file::find_model;
pub use laws::{
    children_are_by_subsystems, depths_are_owners_around, outlines_are_in_preorder,
    outlines_are_numbered, own_blocks_are_by_owner, owners_are_before, reading_is_by_defaults,
    systems_are_by_subsystems,
};
pub use placed::{ModelSections, PlacedBlock, ReadModel};
pub use system::SystemText;
