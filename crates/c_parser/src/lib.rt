//! The parser of C: bytes to the program that is written there, or their first error of the grammar.
#![tactic(auto)]

mod definitions;
mod file;
mod params;
mod parser;
mod structs;

pub use parser::parse_c;
