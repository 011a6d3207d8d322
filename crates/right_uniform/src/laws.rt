ghost use Rattle.right_uniform.specs.Laws.{FusedIsUniform, InlinedIsUniform, PrunedIsUniform, SimplifiedIsUniform};

use emit_fused::fusing_minds_no_lines;
use emit_inlined::inlining_minds_no_lines;

/// A uniform program stays uniform when its tests are fused.
pub fn fused_is_uniform()
    ensures { FusedIsUniform }
{
    fusing_minds_no_lines();
}

/// It stays uniform without the pure functions that it doesn't need.
pub fn pruned_is_uniform()
    ensures { PrunedIsUniform }
{}

/// Lawful code of the right shape for a diagram stays uniform when its helpers are inlined.
pub fn inlined_is_uniform()
    ensures { InlinedIsUniform }
{
    inlining_minds_no_lines();
}

/// So it does when it is simplified.
pub fn simplified_is_uniform()
    ensures { SimplifiedIsUniform }
{
    inlined_is_uniform();
    fused_is_uniform();
    pruned_is_uniform();
}
