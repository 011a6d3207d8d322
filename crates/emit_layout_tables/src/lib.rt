//! The tables of a layout, made from a system and its schedule.
#![tactic(auto)]

mod bases;
mod groups;
mod layouts;
mod numbers;
mod places;
mod ports;
mod sources;

pub use layouts::layout_of;
