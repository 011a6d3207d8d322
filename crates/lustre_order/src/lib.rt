//! Laws of the order of a system's equations: each reads names that are known or given by equations before it.
#![tactic(auto)]

mod laws;

pub use laws::{
    activity_is_in_order, samples_are_in_order, taking_is_in_order, triggers_are_in_order,
    values_are_in_order,
};
