ghost use Rattle.right_system_ticks.specs.ActLaws.{EmittedActsArePerformed};
ghost use Rattle.right_system_ticks.specs.KeptTicks.{EmittedCodeKeepsTicks};

use crate::account_laws::{
    called_groups_are_held, emitted_acts_add, emitted_acts_are_logged, emitted_fields_rest,
    emitted_outputs_stand, emitted_steps_are_few, groups_are_next, groups_stand_first,
    updates_end_ticks,
};
use crate::place_laws::{
    arguments_are_taken, calls_are_logged_by_name, child_resets_stand, fields_have_places,
    groups_take_parameters, procedures_have_places,
};
use emit_row_code::numbers_are_written;
use emit_system_spec::emitted_is_emittable;
use right_relation::{
    call_is_executed, emptied_is_ring, locals_are_sound, moved_is_ring, row_is_executed,
    row_is_no_field, standing_has_slots,
};

/// Each act that may come does what the instance says.
pub fn acts_are_performed()
    ensures { EmittedActsArePerformed }
{
    row_is_executed();
    call_is_executed();
    row_is_no_field();
    standing_has_slots();
    emptied_is_ring();
    moved_is_ring();
    numbers_are_written();
    locals_are_sound();
    emitted_is_emittable();
    groups_are_next();
    updates_end_ticks();
    groups_stand_first();
    fields_have_places();
    procedures_have_places();
    calls_are_logged_by_name();
    child_resets_stand();
    arguments_are_taken();
    groups_take_parameters();
}

/// In each tick the code of a system keeps the relation to the runs of its own rows, where its
/// pieces are right.
pub fn emitted_code_keeps_ticks()
    ensures { EmittedCodeKeepsTicks }
{
    acts_are_performed();
    called_groups_are_held();
    emitted_steps_are_few();
    emitted_acts_add();
    emitted_acts_are_logged();
    emitted_outputs_stand();
    emitted_fields_rest();
}
