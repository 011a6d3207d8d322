//! The names, ports and lines of one system: which output each input of its blocks reads, or the first error.
#![tactic(auto)]

mod controls;
mod doubles;
mod fault;
mod inputs;
mod laws;
mod lines;
mod loose;
mod member;
mod missing;
mod names;
mod newer;
mod ports;
mod sections;
mod shape;
mod verdict;
mod wiring;

pub use fault::WiringFault;
pub use laws::{each_input_has_one_line, each_input_has_one_source};
pub use member::{Member, Shape};
pub use newer::newer_line;
pub use ports::Source;
pub use shape::Inside;
pub use verdict::wire;
pub use wiring::Wiring;
