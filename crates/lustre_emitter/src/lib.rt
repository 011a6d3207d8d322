//! The file of Lustre of a model.
#![tactic(auto)]

mod emission;
mod fault;
mod functions;
mod long_delays;
mod root;
mod root_equations;
mod root_names;
mod system_nodes;
mod systems;
mod texts;

pub use emission::lustre_of;
pub use fault::LusOfFault;
pub use long_delays::long_delay;
