//! What solves the equations of a model's file at a tick has for each name what the run of the diagram has.
#![tactic(auto)]

mod ticks;

pub use ticks::solutions_have_the_run;
