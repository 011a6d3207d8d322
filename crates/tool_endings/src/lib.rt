//! How a call of the tool ends, and the lines that say so.
#![tactic(auto)]

mod ending;
mod lines;

pub use ending::{Ending, ScriptStop};
pub use lines::{
    USAGE, bad_line_line, code_refused_line, compiled_line, flow_stuck_line, long_delay_line,
    lustre_refused_line, nodes_line, stuck_line, ticks_line, totals_line,
};
