//! The table of a model file with its nested systems, or its first refusal.
#![tactic(auto)]

mod laws;
mod parts;
mod port_laws;
mod step;
mod systems;
mod tree;
mod wire_laws;

pub use laws::{
    tree_has_one_table, tree_has_table, tree_is_nested, tree_rows_are_lawful,
    tree_table_is_well_formed,
};
pub use port_laws::{tree_control_ports_are_one, tree_ports_are_numbered};
pub use step::fixed_step;
pub use tree::build;
pub use wire_laws::tree_is_wired;
