//! The whole program: it keeps the rules and limits of C.
//!
//! Proved of each such program: its structs have fields of different names, and of kinds that are there; the
//! names of all functions and procedures differ; each procedure has parameters of different names, and what it
//! reads, stores and calls is there; no chain of calls is too long, as each level of nesting adds at most three;
//! depths and numbers are within the limits; and the root's struct and procedures are there.
#![tactic(auto)]

mod laws;

pub use laws::{
    assembled_is_lawful, chains_are_kept, limits_are_kept, names_are_kept, offered_stand_by_name,
    procedures_are_kept, root_is_kept, structs_are_kept,
};
