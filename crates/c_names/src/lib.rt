//! What the name of a procedure says: whether it is an interface's.
#![tactic(auto)]

mod interfaces;

pub use interfaces::is_interface;
