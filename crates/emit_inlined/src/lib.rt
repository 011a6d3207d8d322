//! The bodies of private procedures that are called at one place, where they are called.
#![tactic(auto)]

mod counting;
mod finding;
mod helpers;
mod inlining;
mod laws;
mod moves;
mod names;
mod params;
mod places;
mod placing;
mod program;

pub use laws::{inlined_is_lawful, inlined_refines, inlining_minds_no_lines};
pub use program::inlined;
