ghost use Rattle.std.specs.Prelude.{◌≡◌, ◌++◌, All, IfOk, OnOk, if◌then◌else◌, [], map};
ghost use Rattle.diagram_blocks.specs.Value.{feeds_through as is_fed_through};
ghost use Rattle.modules_profile.specs.LawfulLocals.{IsChild};
ghost use Rattle.modules_profile.specs.LocalNodes.{used_inputs as inputs_used_by};
ghost use Rattle.modules_profile.specs.NodeWires.{wires_of_calls, wires_of_all, wires_of_row};

use crate::entries::{entries, given, taken};
use crate::{ChildUse, LocalRow};
use base_core::{Memory, Wires};
use diagram_blocks::feeds_through;
use std::alloc::Global;

/// The wires that a node needs, and those that it gives.
#[derive(Drop)]
pub(crate) struct NodeWires {
    /// What it needs at the same tick.
    pub needs: Wires,
    /// The rows whose values it gives.
    pub gives: Wires,
}

/// For each node of a system with these rows and children, in order, the wires that it needs and gives.
pub(crate) fn node_wires(
    alloc: Global,
    rows: &[LocalRow],
    children: &[ChildUse],
) -> Result<Vec<NodeWires>, Memory>
    requires { All IsChild children.now }
    ensures { IfOk result (λ v. v.items ≡ wires_of_all rows.now children.now) }
{
    let mut nodes = row_wires(alloc, rows)?;
    for child in children {
        push_calls(alloc, child, &mut nodes)?;
    }
    Ok(nodes)
}

// The same for the own rows alone.
fn row_wires(alloc: Global, rows: &[LocalRow]) -> Result<Vec<NodeWires>, Memory>
    ensures { IfOk result (λ v. v.items ≡ map wires_of_row rows.now) }
{
    let mut nodes = Vec::new(alloc);
    for row in rows {
        nodes.push(NodeWires {
            needs: used_inputs(alloc, row)?,
            gives: Wires::new(vec![in alloc; row.row]?),
        })?;
    }
    Ok(nodes)
}

// The wires from which a row makes its value at the same tick.
fn used_inputs(alloc: Global, row: &LocalRow) -> Result<Wires, Memory>
    ensures { IfOk result (λ v. v ≡ inputs_used_by row.now) }
{
    let mut used = Vec::new(alloc);
    if feeds_through(&row.op) {
        used.extend_from_slice(row.inputs.wires())?;
    }
    Ok(Wires::new(used))
}

// Adds the calls of a child's functions.
fn push_calls(alloc: Global, child: &ChildUse, nodes: &mut Vec<NodeWires>) -> Result<(), Memory>
    requires { IsChild child.now }
    ensures { OnOk result (nodes.new.items ≡ nodes.old.items ++ wires_of_calls child.now) }
{
    let entries = entries(alloc, child)?;
    let functions = child.header.functions();
    let outputs = child.header.outputs();
    for function in functions {
        nodes.push(NodeWires {
            needs: taken(alloc, function, &entries)?,
            gives: given(alloc, function, outputs)?,
        })?;
    }
    Ok(())
}
