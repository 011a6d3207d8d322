ghost use Rattle.right_fused.specs.Laws.{FusedIsCode};

use emit_fused::{fused_is_lawful, fused_refines};
use right_refined::refined_is_code;

/// Lawful code for a diagram is code for it when it is fused.
pub fn fused_is_code()
    ensures { FusedIsCode }
{
    fused_is_lawful();
    fused_refines();
    refined_is_code();
}
