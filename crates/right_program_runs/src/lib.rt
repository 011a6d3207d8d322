//! The whole program: each instance of a system lives through each run.
#![tactic(auto)]

mod laws;

pub use laws::lives_follow;
