//! The interpreter of C: it runs a program of the subset step by step, exactly as it is defined.
#![tactic(auto)]

mod arithmetic;
mod calls;
mod code;
mod frames;
mod halts;
mod instances;
mod layouts;
mod machine;
mod names;
mod roots;
mod slots;
mod statements;
mod values;

pub use machine::{Machine, NewFault};
