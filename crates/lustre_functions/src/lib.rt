//! Laws of expressions of C as Lustre: they give the same numbers, and so do the eight pure functions as nodes.
#![tactic(auto)]

mod laws;

pub use laws::{
    expressions_give_one, expressions_give_the_same, nodes_are_functions, nodes_give_the_same,
};
