ghost use Rattle.right_inlined.specs.Laws.{InlinedIsCode};

use emit_inlined::{inlined_is_lawful, inlined_refines};
use right_refined::refined_is_code;

/// Lawful code for a diagram is code for it when its helpers are inlined.
pub fn inlined_is_code()
    ensures { InlinedIsCode }
{
    inlined_is_lawful();
    inlined_refines();
    refined_is_code();
}
