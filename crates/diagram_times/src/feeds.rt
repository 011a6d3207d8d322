ghost use Rattle.std.specs.Prelude.{◌≡◌, ◌<◌, ◌≤◌, ◌^◌, ◌++◌, ℕ, map, length, IfOk, OnOk};
ghost use Rattle.diagram_meaning.specs.Rows.{by_row};
ghost use Rattle.diagram_meaning.specs.SampleTimes.{outermost_trigger, search_inputs_in, search_time_in, wire_in, written_by};
ghost use Rattle.diagram_meaning.specs.SampleTimes as search;
ghost use Rattle.diagram_times.specs.Feeding.{AreFeedsBelow, AreInputsInside, IsFeeding, where_inherited};
ghost use Rattle.diagram_times.specs.Feeding as feeding;

use crate::texts::search_time;
use crate::triggers::{trigger_at, trigger_wire};
use base_core::{Memory, TimeText};
use base_graph::Graph;
use diagram_meaning::Row;
use std::alloc::Global;

/// The rows, with an edge to each that inherits its time from those at which the search goes on.
pub(crate) fn feeds(alloc: Global, rows: &[Row], triggers: &[Option<u32>]) -> Result<Graph, Memory>
    requires triggers { triggers.now ≡ by_row rows.now (outermost_trigger rows.now) }
    requires inside { AreInputsInside rows.now }
    requires few { length rows.now < 2 ^ 32 }
    ensures { IfOk result (λ g. IsFeeding rows.now g) }
{
    let edges = feed_edges(alloc, rows, triggers)?;
    let n = rows.len() as u32;
    Ok(Graph { n, edges })
}

/// For each row an edge from each that feeds it.
fn feed_edges(
    alloc: Global,
    rows: &[Row],
    triggers: &[Option<u32>],
) -> Result<Vec<(u32, u32)>, Memory>
    requires triggers { triggers.now ≡ by_row rows.now (outermost_trigger rows.now) }
    requires few { length rows.now < 2 ^ 32 }
    ensures { IfOk result (λ v. AreFeedsBelow rows.now (length rows.now) v.items) }
{
    let mut edges = Vec::new(alloc);
    for b in 0..rows.len() {
        let fed = fed_by(alloc, rows, triggers, b)?;
        push_all(&mut edges, &fed, b as u32)?;
    }
    Ok(edges)
}

/// Adds an edge to row `b` from each of some rows.
fn push_all(edges: &mut Vec<(u32, u32)>, rows: &[u32], b: u32) -> Result<(), Memory>
    ensures { OnOk result (edges.new.items ≡ edges.old.items ++ map (λ a. (a, b)) rows.now) }
{
    for a in rows {
        edges.push((*a, b))?;
    }
    Ok(())
}

/// The rows from which a row inherits its time in the search, none where it has one.
fn fed_by(
    alloc: Global,
    rows: &[Row],
    triggers: &[Option<u32>],
    b: usize,
) -> Result<Vec<u32>, Memory>
    requires triggers { triggers.now ≡ by_row rows.now (outermost_trigger rows.now) }
    requires row { b < length rows.now }
    ensures { IfOk result (λ v. v.items ≡ feeding.fed_by rows.now b) }
{
    match search_time(&rows[b], trigger_at(rows, triggers, b)) {
        TimeText::Inherit => search_inputs(alloc, rows, triggers, b),
        TimeText::Constant | TimeText::Each { .. } => Ok(Vec::new(alloc)),
    }
}

/// The rows at which the search goes on from a row: inside a subsystem with a trigger the trigger of the outermost one alone.
pub(crate) fn search_inputs(
    alloc: Global,
    rows: &[Row],
    triggers: &[Option<u32>],
    b: usize,
) -> Result<Vec<u32>, Memory>
    requires triggers { triggers.now ≡ by_row rows.now (outermost_trigger rows.now) }
    requires row { b < length rows.now }
    ensures { IfOk result (λ v. v.items ≡ search.search_inputs rows.now b) }
{
    match trigger_at(rows, triggers, b) {
        None => copied(alloc, rows[b].inputs.wires()),
        Some(e) => one_wire(alloc, trigger_wire(rows, e as usize)),
    }
}

/// A copy of some wires.
fn copied(alloc: Global, wires: &[u32]) -> Result<Vec<u32>, Memory>
    ensures { IfOk result (λ v. v.items ≡ wires.now) }
{
    Ok(Vec::from_slice(alloc, wires)?)
}

/// A wire that may be there, in a list.
fn one_wire(alloc: Global, wire: Option<u32>) -> Result<Vec<u32>, Memory>
    ensures { IfOk result (λ v. v.items ≡ wire_in wire) }
{
    match wire {
        Some(wire) => Ok(vec![in alloc; wire]?),
        None => Ok(Vec::new(alloc)),
    }
}
