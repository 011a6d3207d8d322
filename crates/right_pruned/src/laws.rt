ghost use Rattle.right_pruned.specs.Laws.{PrunedIsCode, TextOfPrunedIsRight};

use emit_pruned::{calls_mean_no_lines, pruned_has_none_idle, pruned_runs_alike};
use right_claim::text_of_code_is_right;

/// Lawful code for a diagram is code for it when it is pruned.
pub fn pruned_is_code()
    ensures { PrunedIsCode }
{
    pruned_runs_alike();
}

/// So the text of lawful code that is pruned is right for the code's table, and each pure function in it is called.
pub fn text_of_pruned_is_right()
    ensures { TextOfPrunedIsRight }
{
    pruned_is_code();
    pruned_has_none_idle();
    calls_mean_no_lines();
    text_of_code_is_right();
}
