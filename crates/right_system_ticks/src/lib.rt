//! One system: in each tick its code keeps the relation to the runs of its own rows.
#![tactic(auto)]

mod account_laws;
mod laws;
mod place_laws;

pub use account_laws::{
    called_groups_are_held, emitted_acts_add, emitted_acts_are_logged, emitted_fields_rest,
    emitted_outputs_stand, emitted_steps_are_few, groups_are_next, groups_stand_first,
    updates_end_ticks,
};
pub use laws::{acts_are_performed, emitted_code_keeps_ticks};
pub use place_laws::{
    arguments_are_taken, calls_are_logged_by_name, child_resets_stand, fields_have_places,
    groups_take_parameters, procedures_have_places,
};
