//! A driver can be made of each system of right code: its instance is found field by field from that of the root.
#![tactic(auto)]

mod laws;

pub use laws::{instances_are_found, machines_can_be_driven, right_code_is_drivable};
