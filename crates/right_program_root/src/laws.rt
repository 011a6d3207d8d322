ghost use Rattle.right_linking.specs.Root.{RootsStart, RootsTakeTicks};

use c_semantics::procedures_stand_in_order;
use modules_profile::header_is_of_own_rows;
use right_linking::{
    fields_have_places, offers_are_of_headers, root_has_places, systems_have_places,
};
use right_relation::{budgets_sum_to_bound, cycle_is_of_locals, ticks_are_typed};

/// A call of the root's step takes a tick: it gives the outputs, within the bound, by the calls of
/// the tick, and leaves the fields of the next.
pub fn roots_take_ticks()
    ensures { RootsTakeTicks }
{
    header_is_of_own_rows();
    procedures_stand_in_order();
    budgets_sum_to_bound();
    cycle_is_of_locals();
    ticks_are_typed();
    systems_have_places();
    fields_have_places();
    root_has_places();
    offers_are_of_headers();
}

/// The root's start starts all systems, copies each output from its Outport's field and sets the
/// number of the tick to 0, where a start reaches the systems inside.
pub fn roots_start()
    ensures { RootsStart }
{
    procedures_stand_in_order();
    budgets_sum_to_bound();
    systems_have_places();
    fields_have_places();
    root_has_places();
}
