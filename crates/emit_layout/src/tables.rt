use crate::sources::Sources;
use base_core::Port;
use base_fixed_point::FixType;
use emit_system_spec::Place;

/// The tables of a layout beside its fields.
#[derive(Drop)]
pub struct Tables {
    /// What its wires can read.
    pub sources: Sources,
    /// Its nodes by their places among its rows and children.
    pub nodes: Vec<Place>,
    /// The groups that have nodes.
    pub groups: Vec<u32>,
    /// The number of the first procedure of each child, and of what would follow the last one.
    pub bases: Vec<u32>,
    /// Its inputs and then its controls, each with its type.
    pub ports: Vec<(Port, FixType)>,
}
