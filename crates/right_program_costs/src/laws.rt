ghost use Rattle.right_linking.specs.Lives.{AccountsFollow};

use modules_profile::locals_are_lawful;
use right_linking::fields_have_places;
use right_relation::children_meet_their_ticks;

/// An instance has its accounts of a tick, where each of its children serves and has its own.
pub fn accounts_follow()
    ensures { AccountsFollow }
{
    fields_have_places();
    children_meet_their_ticks();
    locals_are_lawful();
}
