ghost use Rattle.lustre_rows.specs.RunLaws.{RowsOfRunsAreComputed, RowsOfRunsAreTimed};
ghost use Rattle.lustre_rows.specs.SystemLaws.{SystemEquationsHold};

use base_fixed_point::rounding_is_one;
use diagram_blocks::narrow_rows_fit;
use diagram_meaning::{
    children_meet_parents, hits_repeat, resolved_cycles_are_short, resolved_cycles_have_ticks,
    runs_are_of_systems,
};
use diagram_typed_runs::ticks_are_typed;
use emit_prelude::whole_numbers_stay;
use emit_row_code::rows_are_computed;
use lustre_functions::nodes_give_the_same;

/// In a run each row is hit at a tick's place in the cycle as at the tick, and what it is at first fits 64 bits.
pub fn rows_of_runs_are_timed()
    ensures { RowsOfRunsAreTimed }
{
    hits_repeat();
}

/// In a run of a model without a loop each row with a value can be computed from what it reads.
pub fn rows_of_runs_are_computed()
    ensures { RowsOfRunsAreComputed }
{
    ticks_are_typed();
}

/// In a run of a model without a loop all equations of a system's node hold, where its names have what the run has.
pub fn system_equations_hold()
    ensures { SystemEquationsHold }
{
    rows_are_computed();
    nodes_give_the_same();
    whole_numbers_stay();
    rounding_is_one();
    narrow_rows_fit();
    ticks_are_typed();
    runs_are_of_systems();
    hits_repeat();
    children_meet_parents();
    resolved_cycles_have_ticks();
    resolved_cycles_are_short();
}
