ghost use Rattle.mdl_table.specs.WireLaws.{TreeIsWired};

use mdl_systems::{outlines_are_numbered, owners_are_before};
use mdl_wiring::each_input_has_one_source;

/// Each row of the table of a tree that isn't refused has as many wires as its kind asks for, each of the system in which it
/// is read.
pub fn tree_is_wired()
    ensures { TreeIsWired }
{
    outlines_are_numbered();
    owners_are_before();
    each_input_has_one_source();
}
