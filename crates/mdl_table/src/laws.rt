ghost use Rattle.mdl_table.specs.Laws.{TreeHasOneTable, TreeHasTable, TreeIsNested, TreeRowsAreLawful, TreeTableIsWellFormed};

use crate::port_laws::{tree_control_ports_are_one, tree_ports_are_numbered};
use crate::wire_laws::tree_is_wired;
use mdl_systems::{
    depths_are_owners_around, outlines_are_in_preorder, outlines_are_numbered, owners_are_before,
};

/// A model file's tree has at most one table.
pub fn tree_has_one_table()
    ensures { TreeHasOneTable }
{}

/// A tree that isn't refused has a table.
pub fn tree_has_table()
    ensures { TreeHasTable }
{}

/// The rows of the table of a tree that isn't refused are nested in preorder, within the limits on rows and depth.
pub fn tree_is_nested()
    ensures { TreeIsNested }
{
    outlines_are_numbered();
    owners_are_before();
    outlines_are_in_preorder();
    depths_are_owners_around();
}

/// Each row of the table of a tree that isn't refused is lawful, and so is its step.
pub fn tree_rows_are_lawful()
    ensures { TreeRowsAreLawful }
{}

/// The table of a tree that isn't refused is well formed.
pub fn tree_table_is_well_formed()
    ensures { TreeTableIsWellFormed }
{
    tree_is_nested();
    tree_is_wired();
    tree_ports_are_numbered();
    tree_control_ports_are_one();
    tree_rows_are_lawful();
}
