//! Reads statements of C by recursive descent.
#![tactic(auto)]

mod build;
mod calls;
mod statements;

pub use statements::block;
