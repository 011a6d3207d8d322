// All names of the node of a system.
ghost use Rattle.std.specs.Prelude.{◌≡◌, ◌<◌, ◌∷◌, ◌++◌, [], IfOk, OnOk, length, map};
ghost use Rattle.std.specs.List.{flat_map};
ghost use Rattle.diagram_meaning.specs.ResolvedTree.{diagram_of};
ghost use Rattle.diagram_meaning.specs.Rows as rows;
ghost use Rattle.emit_shape.specs.Names as shape;
ghost use Rattle.lustre_syntax.specs.Named.{all_names};
ghost use Rattle.lustre_system.specs.Functions.{int_name};
ghost use Rattle.lustre_system.specs.Names as names;
ghost use Rattle.lustre_system.specs.RowEquations.{bool_name, only_if};
ghost use Rattle.lustre_system.specs.RowEquations as equations;
ghost use Rattle.lustre_system.specs.SystemNodes as nodes;
ghost use Rattle.lustre_system_nodes.specs.OwnRows as own;
ghost use Rattle.lustre_system_nodes.specs.Parts.{ArePartsOf};

use crate::call_count::call_count;
use crate::names::Names;
use crate::own_rows::OwnRow;
use crate::parts::Parts;
use crate::reading::{kind_at, op_at, rows_of};
use crate::row_names::{push_memory, push_value, push_values};
use base_core::{Control, Memory, Port};
use diagram_meaning::Resolved;
use emit_row_facts::{is_triggered, named};
use lustre_expressions::port_name;
use lustre_row_equations::row_code;
use std::alloc::Global;

// Adds the names of the inputs of a system: the tick, whether that around it is active and whether it is off, and its own.
fn push_inputs(
    alloc: Global,
    control: Control,
    ports: &[Port],
    list: &mut Names,
) -> Result<(), Memory>
    ensures { OnOk result (list.new ≡ list.old
        ++ int_name shape.now_name ∷ bool_name names.around_active ∷ bool_name names.around_off
        ∷ map int_name (map (shape.port_name control) ports.now)) }
{
    list.push_int(named(alloc, "now")?)?;
    list.push_bool(named(alloc, "on")?)?;
    list.push_bool(named(alloc, "off")?)?;
    for port in ports {
        list.push_int(port_name(alloc, control, *port)?)?;
    }
    Ok(())
}

// Adds the names of whether a system is active and whether it is reset, and of what its trigger remembers.
fn push_states(alloc: Global, control: Control, list: &mut Names) -> Result<(), Memory>
    ensures { OnOk result (list.new ≡ list.old
        ++ bool_name names.active_name ∷ bool_name names.reset_name
        ∷ only_if (rows.is_triggered control) (int_name shape.trigger_name ∷ [])) }
{
    list.push_bool(named(alloc, "active")?)?;
    list.push_bool(named(alloc, "reset")?)?;
    if is_triggered(control) {
        list.push_int(named(alloc, "w")?)?;
    }
    Ok(())
}

// Adds the names that the equations of a row give.
fn push_row(
    alloc: Global,
    r: &Resolved,
    system: Option<u32>,
    row: &OwnRow,
    list: &mut Names,
) -> Result<(), Memory>
    requires inside { row.now.row < length r.now.tree.table.rows }
    requires row { row.now ≡ own.own_row r.now.tree.table.rows row.now.row }
    ensures { OnOk result (list.new
        ≡ list.old ++ equations.row_names (diagram_of r.now) system row.now.row) }
{
    let b = row.row;
    let calls = call_count(&row_code(alloc, r, system, b)?)?;
    push_memory(alloc, b, &op_at(r, b), list)?;
    push_value(alloc, b, &kind_at(rows_of(r), b), calls, list)?;
    push_values(alloc, row.outputs.wires(), list)?;
    Ok(())
}

// Adds the names that the equations of all rows give.
fn push_rows(alloc: Global, r: &Resolved, parts: &Parts, list: &mut Names) -> Result<(), Memory>
    requires { ArePartsOf r.now.tree.table.rows parts.now }
    ensures { let d = diagram_of r.now in OnOk result (list.new ≡ list.old
        ++ flat_map (equations.row_names d parts.now.row) (rows.rows_of d.rows parts.now.row)) }
{
    let own = parts.own.as_slice();
    for row in own {
        push_row(alloc, r, parts.row, row, list)?;
    }
    Ok(())
}

/// The names of the node of a system: its inputs, its outputs, and all others.
pub(crate) fn names_of(alloc: Global, r: &Resolved, parts: &Parts) -> Result<Names, Memory>
    requires { ArePartsOf r.now.tree.table.rows parts.now }
    ensures { IfOk result
        (λ list. list ≡ all_names (nodes.system_node (diagram_of r.now) parts.now.row)) }
{
    let mut list = Names::new(alloc);
    push_inputs(alloc, parts.control, parts.ports.as_slice(), &mut list)?;
    push_values(alloc, parts.outputs.wires(), &mut list)?;
    push_states(alloc, parts.control, &mut list)?;
    push_rows(alloc, r, parts, &mut list)?;
    Ok(list)
}
