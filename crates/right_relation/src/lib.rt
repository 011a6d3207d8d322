//! What the code of a system does in a tick, said by the run of its own rows: the relation that all laws keep.
#![tactic(auto)]

mod laws;

pub use laws::{
    begun_is_ring, budgets_sum_to_bound, call_is_executed, call_is_one_child,
    children_meet_their_ticks, cycle_is_of_locals, emptied_is_ring, first_stands, locals_are_sound,
    moved_is_ring, needed_group_is_earlier, needed_is_held, next_stands, outport_is_held_alone,
    row_is_executed, row_is_no_field, row_is_one_field, standing_has_slots, ticks_are_local,
    ticks_are_typed, ticks_follow,
};
