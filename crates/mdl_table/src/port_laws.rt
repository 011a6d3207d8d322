ghost use Rattle.mdl_table.specs.PortLaws.{TreeControlPortsAreOne, TreePortsAreNumbered};

use mdl_systems::{outlines_are_numbered, owners_are_before};

/// The Inports of each system of a tree that isn't refused have the ports from 1 on, each once, and so have its Outports.
pub fn tree_ports_are_numbered()
    ensures { TreePortsAreNumbered }
{
    outlines_are_numbered();
    owners_are_before();
}

/// Each system of a tree that isn't refused has the control ports of its control, one each.
pub fn tree_control_ports_are_one()
    ensures { TreeControlPortsAreOne }
{
    outlines_are_numbered();
    owners_are_before();
}
