//! The whole program: all its instances start and are reset as they should.
//!
//! Proved to follow: where each system offers what its code does, and its fields hold what its slots
//! do, each system starts and is reset within the budgets; this reaches each system inside, at its
//! path, and leaves there what it should; where the root starts, the whole program does; and where
//! started instances answer traces and scripts, so do those that any start leaves.
#![tactic(auto)]

mod laws;

pub use laws::{renewals_go_inside, renewals_reach_inside, restarts_follow, systems_are_renewed};
