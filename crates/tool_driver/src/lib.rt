//! Drives one system of a C program: its calls one by one, in any lawful order.
#![tactic(auto)]

mod answers;
mod calling;
mod calls;
mod counts;
mod driver;
mod fault;
mod inputs;
mod judging;
mod laws;
mod plans;
mod shape;

pub use driver::Driver;
pub use fault::DriveFault;
pub use inputs::Input;
pub use laws::{calls_go_on, new_drivers_stand, updates_go_on};
pub use shape::DriveShape;
