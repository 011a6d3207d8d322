// The equations of the node of a system.
ghost use Rattle.std.specs.Prelude.{◌≡◌, ◌++◌, None, IfOk, OnOk, map};
ghost use Rattle.std.specs.List.{flat_map};
ghost use Rattle.diagram_meaning.specs.ResolvedTree.{diagram_of};
ghost use Rattle.diagram_meaning.specs.Rows as meaning;
ghost use Rattle.lustre_syntax.specs.Plain.{equation_tree};
ghost use Rattle.lustre_system.specs.RowEquations as rows;
ghost use Rattle.lustre_expressions.specs.Found.{place_in};
ghost use Rattle.lustre_expressions.specs.Scopes.{AreNamesOf};
ghost use Rattle.lustre_row_equations.specs.Placed.{placed_equations};
ghost use Rattle.lustre_row_equations.specs.SystemScopes.{HasOwnNames, HasRow, diagram_in};
ghost use Rattle.lustre_system_nodes.specs.Named.{IsNamed, placed_system};
ghost use Rattle.lustre_system_nodes.specs.OwnRows.{own_row};
ghost use Rattle.lustre_system_nodes.specs.Parts.{ArePartsOf};

use crate::children::push_child;
use crate::controls::push_states;
use crate::named::NamedSystem;
use crate::own_rows::{OwnRow, is_subsystem};
use crate::parts::Parts;
use crate::reading::rows_of;
use base_core::Memory;
use diagram_meaning::Resolved;
use lustre_expressions::{Callees, RowNames, places_of_names};
use lustre_row_equations::{SystemScope, own_equations};
use lustre_syntax::LusEq;
use std::alloc::Global;

// Adds the equations of a row.
fn push_row(
    alloc: Global,
    scope: &SystemScope,
    row: &OwnRow,
    equations: &mut Vec<LusEq>,
) -> Result<(), Memory>
    requires inside { HasRow scope.now row.now.row }
    requires row { row.now ≡ own_row scope.now.diagram.now.tree.table.rows row.now.row }
    requires named { HasOwnNames scope.now }
    ensures { let s = scope.now in OnOk result (map equation_tree equations.new.items
        ≡ map equation_tree equations.old.items
        ++ placed_equations s.names.now (rows.row_equations (diagram_in s) s.system row.now.row)) }
{
    own_equations(alloc, scope, row.row, equations)?;
    if is_subsystem(rows_of(scope.diagram), row.row) {
        push_child(alloc, scope.diagram, scope.names, row, equations)?;
    }
    Ok(())
}

// Adds the equations of all rows.
fn push_rows(
    alloc: Global,
    r: &Resolved,
    names: &RowNames<'_, '_, '_, '_>,
    parts: &Parts,
    equations: &mut Vec<LusEq>,
) -> Result<(), Memory>
    requires parts { ArePartsOf r.now.tree.table.rows parts.now }
    requires named { AreNamesOf names.now r.now.tree.table.rows parts.now.row None }
    ensures { let d = diagram_of r.now in OnOk result (map equation_tree equations.new.items
        ≡ map equation_tree equations.old.items ++ placed_equations names.now
        (flat_map (rows.row_equations d parts.now.row) (meaning.rows_of d.rows parts.now.row))) }
{
    let own = parts.own.as_slice();
    let scope = SystemScope {
        diagram: r,
        system: parts.row,
        names,
    };
    for row in own {
        push_row(alloc, &scope, row, equations)?;
    }
    Ok(())
}

/// The equations of a system over the places of its names, where it calls nodes at these places.
pub fn system_equations(
    alloc: Global,
    r: &Resolved,
    named: &NamedSystem,
    callees: &Callees<'_, '_>,
) -> Result<Vec<LusEq>, Memory>
    requires { IsNamed (diagram_of r.now) named.now.parts.row named.now }
    ensures { IfOk result (λ v. map equation_tree v.items ≡ placed_system
        (place_in callees.now.places.now) (diagram_of r.now) named.now.parts.row) }
{
    let places = places_of_names(alloc, named.names.list())?;
    let scope = RowNames {
        places: &places,
        callees,
        control: named.parts.control,
        ports: named.parts.ports.as_slice(),
        row: None,
    };
    let mut equations = Vec::new(alloc);
    push_states(alloc, &scope, &mut equations)?;
    push_rows(alloc, r, &scope, &named.parts, &mut equations)?;
    Ok(equations)
}
