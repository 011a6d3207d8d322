//! The whole program: the start and the ticks of its root.
//!
//! Proved of each such program: a call of the root's step on the fields of a tick, where the instance
//! of `top` lives through the run, gives the outputs of the run, within the bound on steps, by the
//! calls and stores of the tick, and leaves the fields of the next tick.
//!
//! Proved to follow: where a start of an instance reaches each system inside it at its path, the
//! root's start starts all systems, copies each output from its Outport's field and sets the number
//! of the tick to 0.
#![tactic(auto)]

mod laws;

pub use laws::{roots_start, roots_take_ticks};
