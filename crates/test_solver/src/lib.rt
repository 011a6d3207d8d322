//! The values of a diagram's run, found by solving its equations tick by tick: plain and slow, for tests to compare with.
#![tactic(auto)]

mod activity;
mod reading;
mod row;
mod run;
mod samples;
mod tick;
mod trace;

pub use run::plain_run;
pub use trace::is_trace_for;
