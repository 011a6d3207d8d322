//! Each system of a resolved model without a loop has a profile, nodes and a schedule, from which its code is made.
#![tactic(auto)]

ghost use Rattle.right_any_system.specs.AnySystem.{EachSystemIsEmitted};

use modules_profile::{locals_are_lawful, nodes_have_no_loop};

/// Each system of a resolved model without a loop has what its code is made from.
pub fn each_system_is_emitted()
    ensures { EachSystemIsEmitted }
{
    locals_are_lawful();
    nodes_have_no_loop();
}
