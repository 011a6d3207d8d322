ghost use Rattle.right_system_ticks.specs.ActLaws.{CalledGroupsAreHeld, EmittedActsAdd, EmittedActsAreLogged, EmittedFieldsRest, EmittedOutputsStand, EmittedStepsAreFew};
ghost use Rattle.right_system_ticks.specs.ScheduleLaws.{GroupsAreNext, GroupsStandFirst, UpdatesEndTicks};

use crate::place_laws::fields_have_places;
use modules_profile::{header_is_of_own_rows, locals_are_lawful};
use right_relation::{locals_are_sound, needed_group_is_earlier, outport_is_held_alone};

/// The nodes of a group that wasn't executed can be executed in order, after the groups before it.
pub fn groups_are_next()
    ensures { GroupsAreNext }
{
    locals_are_lawful();
    needed_group_is_earlier();
}

/// The nodes of the update can be executed in order after all groups, and then all nodes were.
pub fn updates_end_ticks()
    ensures { UpdatesEndTicks }
{
    locals_are_lawful();
    header_is_of_own_rows();
}

/// The groups with nodes come first, and a group that two functions call has a counter.
pub fn groups_stand_first()
    ensures { GroupsStandFirst }
{}

/// A function holds the nodes whose groups it calls.
pub fn called_groups_are_held()
    ensures { CalledGroupsAreHeld }
{
    locals_are_lawful();
    header_is_of_own_rows();
}

/// Of the instance itself just the call is logged.
pub fn emitted_acts_are_logged()
    ensures { EmittedActsAreLogged }
{}

/// The own steps of all calls of a tick are within the budget.
pub fn emitted_steps_are_few()
    ensures { EmittedStepsAreFew }
{
    locals_are_lawful();
    header_is_of_own_rows();
    groups_stand_first();
}

/// Each act adds to steps, log and stores what it should.
pub fn emitted_acts_add()
    ensures { EmittedActsAdd }
{
    fields_have_places();
    locals_are_lawful();
    groups_stand_first();
    updates_end_ticks();
}

/// Without an act nothing changes.
pub fn emitted_fields_rest()
    ensures { EmittedFieldsRest }
{
    fields_have_places();
}

/// The fields of outputs have their values where their functions were called, and at the next tick.
pub fn emitted_outputs_stand()
    ensures { EmittedOutputsStand }
{
    fields_have_places();
    outport_is_held_alone();
    called_groups_are_held();
    locals_are_sound();
}
