//! The output functions of each system, the inputs that each of them takes, and each system by its own rows.
#![tactic(auto)]

mod children;
mod copies;
mod edges;
mod entries;
mod fields;
mod functions;
mod header;
mod headers;
mod laws;
mod local;
mod local_rows;
mod needs;
mod node_list;
mod node_wires;
mod nodes;
mod places;
mod ports;
mod profile;
mod profiles;
mod reading;
mod system;
mod tree_profiles;

pub use functions::functions_of;
pub use laws::{
    header_is_of_own_rows, headers_are_one, locals_are_lawful, nodes_have_no_loop,
    nodes_reach_as_rows, profiles_are_least, profiles_are_one, tree_has_all_systems,
};
pub use local::{ChildUse, Header, Local, LocalRow, local_of};
pub use node_list::nodes_of;
pub use nodes::{Node, Nodes};
pub use profile::{Function, Profile};
pub use profiles::{local_with, profile_of, system_nodes};
pub use tree_profiles::profiles_of;
