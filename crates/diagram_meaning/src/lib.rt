//! What a diagram means: its rows, the nested subsystems, types, sample times, needs, and its one run over a trace.
#![tactic(auto)]

mod laws;
mod reading;
mod resolve;
mod resolved;
mod subsystem;
mod table;
mod times;

pub use laws::{
    children_meet_parents, hits_repeat, input_times_are_one, input_times_are_there,
    memories_are_full, off_is_not_active, one_run, output_rests, own_rows_stand_in,
    periods_divide_cycle, resolved_cycles_are_short, resolved_cycles_have_ticks,
    resolved_rows_are_narrow, runs_are_of_systems, runs_have_ticks, tables_have_times,
    ticks_have_rows, time_is_one, time_refusal_is_one, time_refusal_is_there, times_are_one,
    times_are_there, type_is_followed,
};
pub use reading::same_system;
pub use resolve::resolve_all;
pub use resolved::{BuildFault, Resolved};
pub use subsystem::{Subsystem, Tree};
pub use table::{Row, Table};
pub use times::{Time, Times};
