ghost use Rattle.right_linking.specs.Starts.{RenewalsReachInside, SystemsAreRenewed};
ghost use Rattle.right_linking.specs.Whole.{RenewalsGoInside, RestartsFollow};

use right_linking::{fields_have_places, offers_are_of_headers, systems_have_places};
use right_relation::budgets_sum_to_bound;

/// Each system starts and is reset, where it offers what its code does, and its fields hold what its
/// slots do.
pub fn systems_are_renewed()
    ensures { SystemsAreRenewed }
{
    offers_are_of_headers();
}

/// A start and a reset of a system reach each system inside it.
pub fn renewals_reach_inside()
    ensures { RenewalsReachInside }
{
    fields_have_places();
}

/// Each system is started and reset with all inside it, from any fields of its struct, and after its
/// start it answers each lawful script, where started instances do.
pub fn renewals_go_inside()
    ensures { RenewalsGoInside }
{
    systems_have_places();
    fields_have_places();
    budgets_sum_to_bound();
}

/// The whole program is started from any fields, and after that it answers traces and scripts, where
/// its root starts, and started instances answer.
pub fn restarts_follow()
    ensures { RestartsFollow }
{
    systems_have_places();
    fields_have_places();
}
