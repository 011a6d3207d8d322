// The node of the root: it counts the ticks, and calls the system `top`.
ghost use Rattle.std.specs.Prelude.{◌≡◌, ◌++◌, ◌∷◌, [], None, true, false, IfOk, OnOk, map};
ghost use Rattle.diagram_meaning.specs.ResolvedTree.{diagram_of};
ghost use Rattle.diagram_meaning.specs.Rows.{rows_of as rows_of_system};
ghost use Rattle.emit_shape.specs.Names.{now_name};
ghost use Rattle.lustre_syntax.specs.Named.{place_of, renamed_equation};
ghost use Rattle.lustre_syntax.specs.Plain.{declared_names, equation_tree, node_tree};
ghost use Rattle.lustre_system.specs.File.{root_node as root_of};
ghost use Rattle.lustre_system.specs.Functions.{int_name};
ghost use Rattle.lustre_expressions.specs.Found.{place_in};
ghost use Rattle.lustre_expressions.specs.Placed.{placed_by};
ghost use Rattle.lustre_expressions.specs.PortKinds as ports;
ghost use Rattle.lustre_emitter.specs.RootParts as parts;

use crate::root_equations::{now_equation, top_equation};
use crate::root_names::numbered_text;
use base_core::{Memory, Text};
use diagram_meaning::{Resolved, Row, Subsystem};
use emit_row_facts::named;
use lustre_expressions::{Callees, places_of_names, ports_of, small};
use lustre_syntax::{LusEq, LusNode};
use std::alloc::Global;

// The rows of the table.
fn rows_of(r: &Resolved) -> &[Row]
    ensures { result.now ≡ r.now.tree.table.rows }
{
    r.tree.table().rows.as_slice()
}

// The own rows of the root.
fn root_rows(r: &Resolved) -> &[u32]
    ensures { result.now ≡ rows_of_system r.now.tree.table.rows None }
{
    r.is_resolved();
    r.tree.root().own.wires()
}

// After so many ticks all hits repeat.
fn hyper_of(r: &Resolved) -> u32
    ensures { result ≡ r.now.times.hyper }
{
    r.times.hyper
}

// How many Outports the root has, or else Inports.
fn port_count(alloc: Global, r: &Resolved, outputs: bool) -> Result<usize, Memory>
    ensures { IfOk result (λ n. n ≡ parts.port_count (diagram_of r.now) outputs) }
{
    let ports = ports_of(alloc, rows_of(r), root_rows(r), outputs)?;
    Ok(ports.len())
}

// Adds the names of so many outputs, or else inputs.
fn push_numbered(
    alloc: Global,
    names: &mut Vec<(Text, bool)>,
    outputs: bool,
    count: usize,
) -> Result<(), Memory>
    ensures { OnOk result (declared_names names.new.items
        ≡ declared_names names.old.items ++ map int_name (parts.numbered_names outputs count)) }
{
    for k in 0..count {
        names.push((numbered_text(alloc, outputs, k + 1)?, false))?;
    }
    Ok(())
}

// The names of the root with so many inputs and outputs.
fn root_names(alloc: Global, inputs: usize, outputs: usize) -> Result<Vec<(Text, bool)>, Memory>
    ensures { IfOk result (λ v. declared_names v.items
        ≡ map int_name (parts.numbered_names false inputs)
        ++ map int_name (parts.numbered_names true outputs) ++ int_name now_name ∷ []) }
{
    let mut names = Vec::new(alloc);
    push_numbered(alloc, &mut names, false, inputs)?;
    push_numbered(alloc, &mut names, true, outputs)?;
    names.push((named(alloc, "now")?, false))?;
    Ok(names)
}

// How many ticks a root has until all hits repeat, how many inputs and how many outputs.
#[derive(Clone, Copy, Drop)]
struct RootCounts {
    hyper: u32,
    inputs: usize,
    outputs: usize,
}

// The equations of a root with these names.
fn root_equations(
    alloc: Global,
    callees: &Callees,
    names: &[(Text, bool)],
    counts: RootCounts,
) -> Result<Vec<LusEq>, Memory>
    ensures { IfOk result (λ v. map equation_tree v.items
        ≡ map
        (renamed_equation (place_of (map (λ x. x.0) names.now)) (place_in callees.now.places.now))
        (parts.equations_of counts.hyper counts.inputs counts.outputs)) }
{
    let places = places_of_names(alloc, names)?;
    let mut equations = Vec::new(alloc);
    equations.push(now_equation(alloc, &places, counts.hyper)?)?;
    let top = top_equation(alloc, callees, &places, counts.inputs, counts.outputs)?;
    equations.push(top)?;
    Ok(equations)
}

/// The node of the root.
pub(crate) fn root_node(alloc: Global, r: &Resolved, callees: &Callees) -> Result<LusNode, Memory>
    ensures { IfOk result (λ n. node_tree n ≡ placed_by (place_in callees.now.places.now)
        (root_of (diagram_of r.now) r.now.times.hyper)) }
{
    let inputs = port_count(alloc, r, false)?;
    let outputs = port_count(alloc, r, true)?;
    let names = root_names(alloc, inputs, outputs)?;
    let hyper = hyper_of(r);
    let counts = RootCounts {
        hyper,
        inputs,
        outputs,
    };
    let equations = root_equations(alloc, callees, names.as_slice(), counts)?;
    Ok(LusNode {
        name: named(alloc, "root")?,
        line: 0,
        inputs: small(inputs)?,
        outputs: small(outputs)?,
        names,
        equations,
    })
}
