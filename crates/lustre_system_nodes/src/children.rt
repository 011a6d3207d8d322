// The calls of the systems directly inside a system.
ghost use Rattle.std.specs.Prelude.{◌≡◌, ◌∷◌, ◌++◌, Some, None, true, IfOk, OnOk, map};
ghost use Rattle.diagram_blocks.specs.Kinds.{is_subsystem};
ghost use Rattle.diagram_meaning.specs.Inputs.{input_ports};
ghost use Rattle.diagram_meaning.specs.ResolvedTree.{diagram_of};
ghost use Rattle.diagram_meaning.specs.Rows.{row_at};
ghost use Rattle.modules_profile.specs.Systems as systems;
ghost use Rattle.emit_shape.specs.Names as shape;
ghost use Rattle.lustre_syntax.specs.Plain.{equation_tree, expr_tree};
ghost use Rattle.lustre_syntax.specs.Tree.{name};
ghost use Rattle.lustre_system.specs.Names as system_names;
ghost use Rattle.lustre_system.specs.RowEquations as rows;
ghost use Rattle.lustre_expressions.specs.Found.{place_in};
ghost use Rattle.lustre_row_equations.specs.Placed.{placed_equations};
ghost use Rattle.lustre_system_nodes.specs.OwnRows.{own_row};
ghost use Rattle.lustre_system_nodes.specs.Reads.{read_at};

use crate::own_rows::OwnRow;
use crate::reading::rows_of;
use crate::wires::entering_wires;
use base_core::{Memory, Wires};
use diagram_meaning::Resolved;
use emit_row_facts::{system_name, value_name};
use lustre_expressions::{Callees, RowNames};
use lustre_syntax::{LusEq, LusExpr};
use std::alloc::Global;

// The places of the values of rows.
fn value_places(
    alloc: Global,
    names: &RowNames<'_, '_, '_, '_>,
    rows: &[u32],
) -> Result<Vec<u32>, Memory>
    ensures { IfOk result (λ v. v.items
        ≡ map (place_in names.now.places.now) (map shape.value_name rows.now)) }
{
    let mut list = Vec::new(alloc);
    for b in rows {
        let text = value_name(alloc, *b)?;
        list.push(names.places.place(text.bytes()))?;
    }
    Ok(list)
}

// What an input reads through a wire.
fn read(
    alloc: Global,
    names: &RowNames<'_, '_, '_, '_>,
    wire: Option<u32>,
) -> Result<LusExpr, Memory>
    ensures { IfOk result (λ x. expr_tree x ≡ read_at names.now wire) }
{
    match wire {
        None => Ok(LusExpr::Number(0)),
        Some(c) => {
            let text = value_name(alloc, c)?;
            Ok(LusExpr::Name(names.places.place(text.bytes())))
        }
    }
}

// Adds what inputs read through these wires.
fn push_reads(
    alloc: Global,
    names: &RowNames<'_, '_, '_, '_>,
    wires: &[Option<u32>],
    values: &mut Vec<LusExpr>,
) -> Result<(), Memory>
    ensures { OnOk result (map expr_tree values.new.items
        ≡ map expr_tree values.old.items ++ map (read_at names.now) wires.now) }
{
    for wire in wires {
        values.push(read(alloc, names, *wire)?)?;
    }
    Ok(())
}

// What the inputs of a child read: the tick, the system's activity and reset, and the wires that enter it.
fn child_values(
    alloc: Global,
    r: &Resolved,
    names: &RowNames<'_, '_, '_, '_>,
    child: &OwnRow,
) -> Result<Vec<LusExpr>, Memory>
    requires is_subsystem { is_subsystem (row_at r.now.tree.table.rows child.now.row).kind ≡ true }
    requires row { child.now ≡ own_row r.now.tree.table.rows child.now.row }
    ensures { let table = r.now.tree.table.rows in IfOk result (λ v. map expr_tree v.items
        ≡ name (place_in names.now.places.now shape.now_name)
        ∷ name (place_in names.now.places.now system_names.active_name)
        ∷ name (place_in names.now.places.now system_names.reset_name)
        ∷ map (read_at names.now) (map (systems.entering_wire table child.now.row)
        (input_ports table (Some child.now.row)))) }
{
    let wires = entering_wires(alloc, rows_of(r), child.row, child.inputs.wires())?;
    let mut values = Vec::new(alloc);
    values.push(LusExpr::Name(names.places.place(b"now")))?;
    values.push(LusExpr::Name(names.places.place(b"active")))?;
    values.push(LusExpr::Name(names.places.place(b"reset")))?;
    push_reads(alloc, names, wires.as_slice(), &mut values)?;
    Ok(values)
}

// The place of the node of a child.
fn child_node(alloc: Global, callees: &Callees<'_, '_>, e: u32) -> Result<u32, Memory>
    ensures { IfOk result
        (λ k. k ≡ place_in callees.now.places.now (systems.system_name (Some e))) }
{
    let text = system_name(alloc, Some(e))?;
    Ok(callees.places.place(text.bytes()))
}

/// Adds the call of a child, by its row.
pub(crate) fn push_child(
    alloc: Global,
    r: &Resolved,
    names: &RowNames<'_, '_, '_, '_>,
    child: &OwnRow,
    equations: &mut Vec<LusEq>,
) -> Result<(), Memory>
    requires is_subsystem { is_subsystem (row_at r.now.tree.table.rows child.now.row).kind ≡ true }
    requires row { child.now ≡ own_row r.now.tree.table.rows child.now.row }
    ensures { OnOk result (map equation_tree equations.new.items
        ≡ map equation_tree equations.old.items
        ++ placed_equations names.now (rows.child_equations (diagram_of r.now) None child.now.row)) }
{
    let given = value_places(alloc, names, child.outputs.wires())?;
    let node = child_node(alloc, names.callees, child.row)?;
    let values = child_values(alloc, r, names, child)?;
    equations.push(LusEq::Call {
        line: 0,
        names: Wires::new(given),
        node,
        values,
    })?;
    Ok(())
}
