ghost use Rattle.emit_simplified.specs.Laws.{SimplifiedHasNoneIdle, SimplifiedIsLawful, SimplifiedRefines};

use c_refinement::{refinements_compose, same_runs_refine};
use emit_fused::{fused_is_lawful, fused_refines};
use emit_inlined::{inlined_is_lawful, inlined_refines};
use emit_pruned::{pruned_has_none_idle, pruned_is_lawful, pruned_runs_alike};

/// A simplified program keeps the static rules and the limits.
pub fn simplified_is_lawful()
    ensures { SimplifiedIsLawful }
{
    inlined_is_lawful();
    fused_is_lawful();
    pruned_is_lawful();
}

/// It does the same in no more steps, at each call of a procedure that stays.
pub fn simplified_refines()
    ensures { SimplifiedRefines }
{
    inlined_is_lawful();
    fused_is_lawful();
    inlined_refines();
    fused_refines();
    pruned_runs_alike();
    refinements_compose();
    same_runs_refine();
}

/// Each of its pure functions is called.
pub fn simplified_has_none_idle()
    ensures { SimplifiedHasNoneIdle }
{
    inlined_is_lawful();
    fused_is_lawful();
    pruned_has_none_idle();
}
