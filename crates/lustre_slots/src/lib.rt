//! The slots of a file of Lustre: one for each name of each instance, and what gives it its value.
#![tactic(auto)]

mod extents;
mod instances;
mod placed;
mod plan;
mod slots;
mod sources;

pub use placed::{Placed, Source};
pub use slots::{Slots, slots_of};
