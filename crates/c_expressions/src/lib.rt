//! Reads expressions and conditions of C by recursive descent, and the small parts of which all else is read.
#![tactic(auto)]

mod build;
mod exprs;
mod leaves;
mod operands;
mod reader;

pub use reader::{Limits, Parse, Read, Reader, deep_on, syntax_on};
