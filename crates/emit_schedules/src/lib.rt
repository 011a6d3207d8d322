//! The schedule of a system: its nodes in their one order, by the functions of its profile that hold them.
#![tactic(auto)]

mod functions;
mod schedules;

pub use schedules::schedule_of_system;
