//! Files of Lustre as trees: expressions, equations, nodes; and which of them are lawful.
#![tactic(auto)]

mod code;
mod file;

pub use code::{LusEq, LusExpr, LusOp};
pub use file::{LusFile, LusNode};
