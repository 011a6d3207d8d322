//! Makes a driver of the system of a model that a word names, over an interpreter of the model's code.
#![tactic(auto)]

mod controls;
mod driver;
mod instance;
mod laws;
mod names;
mod ports;
mod profile;
mod reading;
mod shape;
mod system;

pub use driver::driver_of;
pub use laws::shapes_are_one;
pub use shape::shape_of;
pub use system::{System, system_named};
