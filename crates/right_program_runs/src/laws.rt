ghost use Rattle.right_linking.specs.Lives.{LivesFollow};

use right_linking::{fields_have_places, offers_are_of_headers, systems_have_places};
use right_relation::{
    children_meet_their_ticks, cycle_is_of_locals, first_stands, next_stands, ticks_are_local,
    ticks_are_typed, ticks_follow,
};

/// Each instance lives through each run, where systems offer what their codes do, the fields of each struct hold what its
/// slots do, and the accounts of an instance follow from those of its children.
pub fn lives_follow()
    ensures { LivesFollow }
{
    ticks_are_local();
    ticks_are_typed();
    ticks_follow();
    cycle_is_of_locals();
    children_meet_their_ticks();
    next_stands();
    first_stands();
    offers_are_of_headers();
    systems_have_places();
    fields_have_places();
}
