//! Code for a diagram stays code for it in a program that refines it and has the shape.
#![tactic(auto)]

mod laws;

pub use laws::refined_is_code;
