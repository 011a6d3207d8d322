ghost use Rattle.right_system.specs.EmittedOk.{EmittedCodeIsOk};

use right_system_nodes::pieces_are_right;
use right_system_rules::{emitted_has_short_chains, emitted_is_lawful};
use right_system_shape::emitted_code_has_shape;
use right_system_starts::{emitted_code_resets, emitted_code_starts};
use right_system_ticks::emitted_code_keeps_ticks;

/// The code of each system of a model without a loop is right by itself, whatever code its children have that does the same.
pub fn emitted_code_is_ok()
    ensures { EmittedCodeIsOk }
{
    emitted_code_has_shape();
    pieces_are_right();
    emitted_code_keeps_ticks();
    emitted_code_starts();
    emitted_code_resets();
    emitted_is_lawful();
    emitted_has_short_chains();
}
