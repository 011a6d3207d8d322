//! The interfaces of all systems of a model's text, with certificates that each is least, as a text.
#![tactic(auto)]

mod counts;
mod interfaces;
mod needs;
mod ports;
mod system;
mod systems;

pub use interfaces::report_of;
