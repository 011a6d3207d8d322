//! The layout of a system's code: the fields, sources, nodes, procedures and parameters that its statements name.
#![tactic(auto)]

mod fields;
mod groups;
mod layout;
mod parameter;
mod params;
mod positions;
mod sources;
mod tables;

pub use fields::{Fields, Numbers};
pub use layout::Layout;
pub use parameter::Parameter;
pub use params::{Params, port_parameter, trigger_parameter};
pub use positions::Positions;
pub use sources::Sources;
pub use tables::Tables;
