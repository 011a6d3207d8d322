ghost use Rattle.lustre_right.specs.NodeLaws.{SystemsAreTyped};

use diagram_meaning::{
    periods_divide_cycle, resolved_cycles_are_short, resolved_cycles_have_ticks,
    resolved_rows_are_narrow,
};
use emit_row_code::{rows_are_lawful, rows_are_shallow, rows_read_their_leaves};

/// Where the names of a system's node are different and the nodes that it calls are there before it, its equations agree in
/// types and can be written.
pub fn systems_are_typed()
    ensures { SystemsAreTyped }
{
    periods_divide_cycle();
    resolved_cycles_are_short();
    resolved_cycles_have_ticks();
    resolved_rows_are_narrow();
    rows_are_lawful();
    rows_are_shallow();
    rows_read_their_leaves();
}
