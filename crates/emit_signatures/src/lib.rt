//! A system's struct, and the parameters of its procedures.
#![tactic(auto)]

mod heads;
mod inports;
mod outputs;
mod params;
mod struct_fields;

pub use outputs::output_fields;
pub use params::{group_params, out_params, update_params};
pub use struct_fields::structure;
