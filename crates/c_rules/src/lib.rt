//! The static rules of C: the program that a written program stands for, and the program of a text.
#![tactic(auto)]

mod faults;

pub use faults::{fault_at, on_line, unless_fault};
