ghost use Rattle.lustre_rows.specs.EquationLaws.{ActivityEquationsHold, MemoryEquationsHold, ValueEquationsHold};

use base_fixed_point::rounding_is_one;
use diagram_blocks::narrow_rows_fit;
use emit_prelude::whole_numbers_stay;
use emit_row_code::rows_are_computed;
use lustre_functions::nodes_give_the_same;

/// A system's trigger remembers, and a system is active and reset, as in the run of the diagram.
#[tactic(auto, using(crate::proofs::Activity::activity_equations_hold))]
pub fn activity_equations_hold()
    ensures { ActivityEquationsHold }
{}

/// Each sample of a delay is the one that the delay remembers in the run of the diagram.
pub fn memory_equations_hold()
    ensures { MemoryEquationsHold }
{}

/// Each row has its value where it runs, else that of the tick before, and what it is reset to where its output is reset; and
/// each call of a function for it gives what the function gives in C.
pub fn value_equations_hold()
    ensures { ValueEquationsHold }
{
    rows_are_computed();
    nodes_give_the_same();
    whole_numbers_stay();
    rounding_is_one();
    narrow_rows_fit();
}
