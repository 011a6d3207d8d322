//! The verdict on a model file: its first refusal, or the resolved table of its model.
#![tactic(auto)]

mod accept;
mod delays;
mod fault;
mod laws;
mod loops;
mod read;
mod resolve;

pub use accept::{accept_model, accept_sections, accept_tree};
pub use fault::ModelFault;
pub use laws::{
    accepted_tables_are_well_formed, one_file_verdict, one_tree_verdict, one_verdict,
    tree_verdict_is_of_file,
};
pub use read::read_file;
