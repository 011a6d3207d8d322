ghost use Rattle.std.specs.Prelude.{◌≡◌, ℕ, ◌<◌, ◌++◌, ◌&&◌, ◌↔◌, [], None, if◌then◌else◌, map, length, Contains, IfOk, OnOk};
ghost use Rattle.diagram_meaning.specs.Rows.{around_inside, is_system as is_system_row, same_system as is_same_system};
ghost use Rattle.diagram_blocks.specs.Kinds.{is_inport as is_inport_kind};
ghost use Rattle.diagram_blocks.specs.Value.{feeds_through as is_fed_through};
ghost use Rattle.diagram_meaning.specs.WellFormed.{IsNested};
ghost use Rattle.diagram_meaning.specs.Needs.{needs_of, needs_inside};
ghost use Rattle.diagram_meaning.specs.Inputs.{wires_of_rows};
ghost use Rattle.diagram_meaning.specs.ResolvedTree.{diagram_of};
ghost use Rattle.diagram_needs.specs.Needed.{IsGraphOf, AreEdgesBelow};

use base_core::Memory;
use base_graph::Graph;
use diagram_blocks::{Op, feeds_through};
use diagram_meaning::{Resolved, Row, same_system};
use std::alloc::Global;

// The rows, with an edge to each from those that it needs inside the system.
pub(crate) fn needs_graph(alloc: Global, r: &Resolved, system: Option<u32>) -> Result<Graph, Memory>
    ensures inside { IfOk result (IsGraphOf r.now.tree.table.rows (needs_inside (diagram_of r.now) system)) }
    ensures whole { system ≡ None →
        IfOk result (IsGraphOf r.now.tree.table.rows (needs_of (diagram_of r.now))) }
{
    let edges = needs_edges(alloc, r, system)?;
    let n = r.tree.table().rows.len() as u32;
    Ok(Graph { n, edges })
}

// For each row an edge from each row that it needs inside the system.
fn needs_edges(alloc: Global, r: &Resolved, system: Option<u32>) -> Result<Vec<(u32, u32)>, Memory>
    ensures { IfOk result
        (λ v. AreEdgesBelow (needs_inside (diagram_of r.now) system)
        (length r.now.tree.table.rows) v.items) }
{
    let rows = r.tree.table().rows.as_slice();
    let ops = r.ops.as_slice();
    let mut edges = Vec::new(alloc);
    for b in 0..rows.len() {
        push_used(&mut edges, &rows[b], &ops[b], system, b as u32)?;
        push_controls(&mut edges, rows, system, b as u32)?;
    }
    Ok(edges)
}

// Adds the inputs from which row `b` makes its value at the same tick; an Inport of the system has none.
fn push_used(
    edges: &mut Vec<(u32, u32)>,
    row: &Row,
    op: &Op,
    system: Option<u32>,
    b: u32,
) -> Result<(), Memory>
    ensures { OnOk result (edges.new.items
        ≡ edges.old.items
        ++ map (λ a. (a, b)) (if is_inport_kind row.now.kind && is_same_system row.now.owner system
        then [] else (if is_fed_through op.now then row.now.inputs else []))) }
{
    if row.kind.is_inport() && same_system(row.owner, system) {
        return Ok(());
    }
    if !feeds_through(op) {
        return Ok(());
    }
    push_all(edges, row.inputs.wires(), b)
}

// Adds the controls of the subsystems around row `b` that are inside the system.
fn push_controls(
    edges: &mut Vec<(u32, u32)>,
    rows: &[Row],
    system: Option<u32>,
    b: u32,
) -> Result<(), Memory>
    requires nested { IsNested rows.now }
    requires row { b < length rows.now }
    ensures { OnOk result (edges.new.items
        ≡ edges.old.items
        ++ map (λ a. (a, b)) (wires_of_rows rows.now (around_inside rows.now system b))) }
{
    if is_system(system, b) {
        return Ok(());
    }
    let mut outer = rows[b as usize].owner;
    while let Some(e) = outer {
        if is_system(system, e) {
            return Ok(());
        }
        push_all(edges, rows[e as usize].inputs.wires(), b)?;
        outer = rows[e as usize].owner;
    }
    Ok(())
}

// Adds an edge to row `b` from each of the wires.
fn push_all(edges: &mut Vec<(u32, u32)>, wires: &[u32], b: u32) -> Result<(), Memory>
    ensures { OnOk result (edges.new.items ≡ edges.old.items ++ map (λ a. (a, b)) wires.now) }
{
    for a in wires {
        edges.push((*a, b))?;
    }
    Ok(())
}

// Whether `e` is the row of the system.
fn is_system(system: Option<u32>, e: u32) -> bool
    ensures { result ≡ is_system_row system e }
{
    match system {
        None => false,
        Some(s) => s == e,
    }
}
