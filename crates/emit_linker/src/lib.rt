//! Puts the codes of all systems together: their structs and procedures at their places, with the root's own and the
//! pure functions.
#![tactic(auto)]

mod calls;
mod child_names;
mod codes;
mod exprs;
mod linking;
mod links;
mod lists;
mod names;
mod parts;
mod procedures;
mod program;
mod public;
mod root_body;
mod root_code;
mod root_struct;
mod stmts;
mod structs;
mod tables;

pub use program::assemble;
