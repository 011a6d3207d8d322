//! The whole program: the instances of its systems, their fields and paths.
//!
//! Proved of each such program: an instance all of whose numbers are 0 has the forms of its struct;
//! the fields of a system's struct hold what its slots do; and in an instance of a system, and in one
//! of the root, each system inside has an instance at its path, with its forms.
#![tactic(auto)]

mod laws;

pub use laws::{
    forms_are_of_slots, instances_have_paths, instances_have_paths_inside, zeros_have_forms,
};
