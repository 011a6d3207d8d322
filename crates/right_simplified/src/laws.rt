ghost use Rattle.right_simplified.specs.Laws.{SimplifiedIsCode, TextOfSimplifiedIsRight};

use emit_fused::fused_is_lawful;
use emit_inlined::inlined_is_lawful;
use right_fused::fused_is_code;
use right_inlined::inlined_is_code;
use right_pruned::{pruned_is_code, text_of_pruned_is_right};

/// Lawful code for a diagram is code for it when it is simplified.
pub fn simplified_is_code()
    ensures { SimplifiedIsCode }
{
    inlined_is_lawful();
    fused_is_lawful();
    inlined_is_code();
    fused_is_code();
    pruned_is_code();
}

/// So the text of lawful code that is simplified is right for the code's table, and each pure function in it is called.
pub fn text_of_simplified_is_right()
    ensures { TextOfSimplifiedIsRight }
{
    inlined_is_lawful();
    fused_is_lawful();
    inlined_is_code();
    fused_is_code();
    text_of_pruned_is_right();
}
