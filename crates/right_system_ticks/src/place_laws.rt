ghost use Rattle.right_system_ticks.specs.PlaceLaws.{ArgumentsAreTaken, CallsAreLoggedByName, ChildResetsStand, FieldsHavePlaces, GroupsTakeParameters, ProceduresHavePlaces};

use crate::account_laws::{called_groups_are_held, groups_stand_first};
use emit_system_spec::emitted_is_emittable;
use modules_profile::{locals_are_lawful, nodes_reach_as_rows};
use right_relation::locals_are_sound;

/// What the code names by the number of a row, a child or a counter is at its field, once.
pub fn fields_have_places()
    ensures { FieldsHavePlaces }
{
    locals_are_sound();
    emitted_is_emittable();
}

/// The functions, the update and the reset of a system are found by their names.
pub fn procedures_have_places()
    ensures { ProceduresHavePlaces }
{
    emitted_is_emittable();
    groups_stand_first();
}

/// By their names, calls of functions and of updates are logged, and those of groups, starts and
/// resets are not.
pub fn calls_are_logged_by_name()
    ensures { CallsAreLoggedByName }
{
    emitted_is_emittable();
    groups_stand_first();
}

/// The procedure that the code calls to reset a child is the child's.
pub fn child_resets_stand()
    ensures { ChildResetsStand }
{}

/// What functions and the update are called with are arguments for their parameters, in their
/// types.
pub fn arguments_are_taken()
    ensures { ArgumentsAreTaken }
{}

/// A parameter of a group is one of each function that calls it, found by its name.
pub fn groups_take_parameters()
    ensures { GroupsTakeParameters }
{
    nodes_reach_as_rows();
    locals_are_lawful();
    emitted_is_emittable();
    called_groups_are_held();
    groups_stand_first();
}
