ghost use Rattle.lustre_right.specs.TickLaws.{SolutionsHaveTheRun};

use diagram_meaning::{
    children_meet_parents, resolved_cycles_are_short, resolved_cycles_have_ticks,
    runs_are_of_systems,
};
use lustre_expected::expected_values;
use lustre_instances::systems_hold;
use lustre_rows::{
    activity_equations_hold, child_equations_hold, memory_equations_hold,
    rows_of_runs_are_computed, rows_of_runs_are_timed, value_equations_hold,
};

/// What solves the equations of a model's file at a tick of a run has for each name what the run has, and is whole.
pub fn solutions_have_the_run()
    ensures { SolutionsHaveTheRun }
{
    systems_hold();
    expected_values();
    activity_equations_hold();
    memory_equations_hold();
    value_equations_hold();
    child_equations_hold();
    rows_of_runs_are_timed();
    rows_of_runs_are_computed();
    runs_are_of_systems();
    children_meet_parents();
    resolved_cycles_have_ticks();
    resolved_cycles_are_short();
}
