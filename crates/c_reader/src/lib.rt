//! The reader of C: bytes to a program that keeps the static rules, or their first error.
#![tactic(auto)]

mod reader;

pub use c_grammar::ReadCFault;
pub use reader::read_c;
