//! What the emitter asks of a system's rows: kinds, ports, starts and names; and the place of a port in a set.
#![tactic(auto)]

mod kinds;
mod names;
mod ported;
mod starts;

pub use kinds::{container, is_line, is_single, is_triggered};
pub use names::{
    counter_name, group_name, input_name, joined, memory_name, named, out_name, output_name,
    place_name, reset_name, start_name, system_name, taken_name, update_name, value_name,
};
pub use ported::{Ported, inports, outports};
pub use starts::row_start;
