//! One system: the code of each row, memory and call is right where it is.
#![tactic(auto)]

mod laws;

pub use laws::{
    calls_are_acts, memories_are_given, pieces_are_right, resets_are_acts, rings_are_given,
    triggers_are_remembered, updates_are_acts, values_are_given,
};
