//! One system: its code keeps the rules and limits of C.
#![tactic(auto)]

mod laws;

pub use laws::{
    calls_stay_within, emitted_has_short_chains, emitted_is_lawful, procedures_are_lawful,
    procedures_differ, procedures_fit, structs_are_lawful,
};
