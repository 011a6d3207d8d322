//! The parser of Lustre: bytes to the file that is written there, or their first error of the grammar.
#![tactic(auto)]

mod declarations;
mod equations;
mod exprs;
mod forms;
mod lists;
mod nodes;
mod parser;
mod reader;

pub use parser::parse_lustre;
