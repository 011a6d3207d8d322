//! The resolver of C: the program that a written program stands for, or the first construct that breaks a static rule.
#![tactic(auto)]

mod calls;
mod chains;
mod exprs;
mod field_rules;
mod fields;
mod known;
mod lookups;
mod numbers;
mod params;
mod procedures;
mod programs;
mod pures;
mod roots;
mod stmts;
mod structs;
mod table;

pub use programs::resolve_program;
