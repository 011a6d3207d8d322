//! The whole program: its shape and interfaces are those of the codes of its systems.
//!
//! Proved: what positions stand for in a system's procedures in the program is what they stand for in
//! its code; so each system keeps its struct, its public procedures and the rules of what it touches,
//! and the structs and the root's procedures are those that are wanted. The output procedures of a
//! system take and give what its functions do, and no exact interface has fewer.
#![tactic(auto)]

mod laws;

pub use laws::{
    assembled_has_shape, assembled_is_least, functions_are_known, root_has_shape,
    structs_are_named, systems_have_shape,
};
