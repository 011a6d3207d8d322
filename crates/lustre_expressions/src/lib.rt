//! Expressions of C as Lustre, and the names of a node with their places.
#![tactic(auto)]

mod lookup;
mod names;
mod naming;
mod places;
mod ports;
mod scope_places;
mod scopes;
mod translation;

pub use lookup::{places_of_names, places_of_texts};
pub use names::{part_name, port_name, sample_name, takes_name};
pub use naming::Naming;
pub use places::{Places, small};
pub use ports::ports_of;
pub use scopes::{Callees, ParamNames, RowNames};
pub use translation::{Calls, comparison, operator, test_from, value_from};
