//! That a run over a trace in its types stays in its types: what each system reads, makes and remembers at a tick.
#![tactic(auto)]

mod laws;

pub use laws::ticks_are_typed;
