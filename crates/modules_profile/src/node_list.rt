ghost use Rattle.std.specs.Prelude.{◌≡◌, ◌++◌, ◌≤◌, All, IfOk, OnOk, Some, flat_map, length, map};
ghost use Rattle.modules_profile.specs.declared.nodes.Node.TheVariants.{Row as row_node};
ghost use Rattle.modules_profile.specs.LawfulLocals.{IsChild, IsLocal};
ghost use Rattle.modules_profile.specs.LocalNodes.{AreNodesOf, call_nodes, calls_of};

use crate::edges::node_graph;
use crate::node_wires::node_wires;
use crate::places::outport_places;
use crate::{ChildUse, Local, LocalRow, Node, Nodes};
use base_core::Memory;
use std::alloc::Global;

/// The nodes of a system: its own rows in the order of the file, and then for each child the calls of its functions by
/// number. An edge leads from each node to those that need what it gives. That an Inport of the system needs the wire
/// that enters it, and a row a control of the system, counts for nothing.
///
/// In time linear in the rows of the system and in the headers of its children.
pub fn nodes_of(alloc: Global, local: &Local) -> Result<Nodes, Memory>
    requires { IsLocal local.now }
    ensures { IfOk result (λ nodes. AreNodesOf local.now nodes) }
{
    let rows = local.rows.as_slice();
    let children = local.children.as_slice();
    let wires = node_wires(alloc, rows, children)?;
    Ok(Nodes {
        graph: node_graph(alloc, &wires)?,
        list: node_list(alloc, rows, children)?,
        outputs: outport_places(alloc, rows)?,
    })
}

// The nodes of a system with these rows and children, in their order.
fn node_list(alloc: Global, rows: &[LocalRow], children: &[ChildUse]) -> Result<Vec<Node>, Memory>
    requires { All IsChild children.now }
    ensures { IfOk result (λ v. v.items ≡ map (λ r. row_node r.row) rows.now
        ++ flat_map call_nodes children.now) }
{
    let mut list = own_nodes(alloc, rows)?;
    for child in children {
        push_calls(child, &mut list)?;
    }
    Ok(list)
}

// The own rows alone.
fn own_nodes(alloc: Global, rows: &[LocalRow]) -> Result<Vec<Node>, Memory>
    ensures { IfOk result (λ v. v.items ≡ map (λ r. row_node r.row) rows.now) }
{
    let mut list = Vec::new(alloc);
    for row in rows {
        list.push(Node::Row(row.row))?;
    }
    Ok(list)
}

// Adds the calls of a child's functions; the root is no child.
fn push_calls(child: &ChildUse, list: &mut Vec<Node>) -> Result<(), Memory>
    requires { length child.now.header.profile.functions ≤ 32 }
    ensures { OnOk result (list.new.items ≡ list.old.items ++ call_nodes child.now) }
{
    match child.header.row {
        None => Ok(()),
        Some(row) => push_calls_of(row, child.header.profile.functions.len(), list),
    }
}

// Adds the calls of so many functions of the child with this row.
fn push_calls_of(row: u32, functions: usize, list: &mut Vec<Node>) -> Result<(), Memory>
    requires { functions ≤ 32 }
    ensures { OnOk result (list.new.items ≡ list.old.items ++ calls_of (Some row) functions) }
{
    for k in 0..functions {
        list.push(Node::Call {
            child: row,
            function: k as u32 + 1,
        })?;
    }
    Ok(())
}
