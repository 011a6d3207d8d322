// What the expressions of a row read: the leaves of a system's node.
ghost use Rattle.std.specs.Prelude.{◌≡◌, ◌<◌, ◌+◌, ℕ, List, Option, IfOk, length, map};
ghost use Rattle.base_core.specs.Ports.{control_ports};
ghost use Rattle.diagram_meaning.specs.declared.table.Row.{Row};
ghost use Rattle.diagram_meaning.specs.Rows as rows;
ghost use Rattle.c_syntax.specs.declared.Leaf.TheVariants.{Own};
ghost use Rattle.lustre_system.specs.Names as system_names;
ghost use Rattle.lustre_expressions.specs.Scopes.{AreNamesOf};

use base_core::{Control, Memory};
use c_syntax::Leaf;
use diagram_meaning::{Resolved, same_system};
use emit_row_code::ControlLeaves;
use lustre_expressions::{RowNames, small};
use std::alloc::Global;

// The values of these rows.
fn own_leaves(alloc: Global, wires: &[u32]) -> Result<Vec<Leaf>, Memory>
    ensures { IfOk result (λ v. v.items ≡ map Own wires.now) }
{
    let mut leaves = Vec::new(alloc);
    for c in wires {
        leaves.push(Leaf::Own(*c))?;
    }
    Ok(leaves)
}

/// What row `b` reads in the system: an Inport of it its input, another row the values of its wires.
pub(crate) fn leaves_of(
    alloc: Global,
    r: &Resolved,
    system: Option<u32>,
    b: u32,
) -> Result<Vec<Leaf>, Memory>
    requires { b < length r.now.tree.table.rows }
    ensures { IfOk result (λ v. v.items ≡ system_names.leaves_of r.now.tree.table.rows system b) }
{
    let row = r.row(b);
    if row.kind.is_inport() && same_system(row.owner, system) {
        let mut leaves = Vec::new(alloc);
        leaves.push(Leaf::Param(row.kind.port().saturating_sub(1)))?;
        return Ok(leaves);
    }
    own_leaves(alloc, row.inputs.wires())
}

/// The tick in its cycle, which comes after the inputs and what the trigger remembers.
pub(crate) fn now_leaf(names: &RowNames<'_, '_, '_, '_>) -> Result<Leaf, Memory>
    ensures { IfOk result (λ leaf. (rows : List Row) (s b : Option ℕ) →
        AreNamesOf names.now rows s b → leaf ≡ system_names.now_leaf rows s) }
{
    let count = small(names.ports.len())?;
    match count.checked_add(1) {
        Some(now) => Ok(Leaf::Param(now)),
        None => Err(Memory),
    }
}

// The place of the enable among so many inputs, the controls after all others.
fn enable_place(control: Control, count: u32) -> u32
    ensures { (numbers : ℕ) → count ≡ numbers + length (control_ports control) →
        result ≡ numbers }
{
    match control {
        Control::Plain => count,
        Control::Enabled { .. } | Control::Triggered(_) => count.saturating_sub(1),
        Control::Both { .. } => count.saturating_sub(2),
    }
}

// The place of the trigger among so many inputs, the last of the controls.
fn trigger_place(control: Control, count: u32) -> u32
    ensures { (numbers : ℕ) → count ≡ numbers + length (control_ports control) →
        result ≡ numbers + rows.enable_count control }
{
    match control {
        Control::Plain | Control::Enabled { .. } => count,
        Control::Triggered(_) | Control::Both { .. } => count.saturating_sub(1),
    }
}

/// Where the controls of a system are read in its node, and what its trigger remembers.
pub fn control_leaves(names: &RowNames<'_, '_, '_, '_>) -> Result<ControlLeaves, Memory>
    ensures { IfOk result (λ leaves. (rows : List Row) (s b : Option ℕ) →
        AreNamesOf names.now rows s b → leaves ≡ system_names.control_leaves rows s) }
{
    let count = small(names.ports.len())?;
    Ok(ControlLeaves {
        enable: Leaf::Param(enable_place(names.control, count)),
        trigger: Leaf::Param(trigger_place(names.control, count)),
        remembers: Leaf::Param(count),
    })
}
