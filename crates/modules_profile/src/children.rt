ghost use Rattle.std.specs.Prelude.{◌≡◌, ◌<◌, Some, All, IfOk, length, map};
ghost use Rattle.diagram_meaning.specs.Nested.{Agrees, row_of, system_of};
ghost use Rattle.diagram_meaning.specs.ResolvedTree.{diagram_of};
ghost use Rattle.diagram_meaning.specs.Rows.{subsystems_of};
ghost use Rattle.diagram_meaning.specs.Inputs.{control_wires_of};
ghost use Rattle.modules_profile.specs.Locals.{child_use as child_use_of};
ghost use Rattle.modules_profile.specs.Systems.{IsInTable};

use crate::copies::copy_header;
use crate::local_rows::{copy_wires, entering_wires};
use crate::ports::inports;
use crate::system::{child, own};
use crate::{ChildUse, Header};
use base_core::{Memory, Wires};
use diagram_meaning::{Resolved, Subsystem};
use std::alloc::Global;

/// The children of a system, which have these headers, with the wires that enter them.
pub(crate) fn child_uses(
    alloc: Global,
    r: &Resolved,
    s: &Subsystem,
    headers: &[Header],
) -> Result<Vec<ChildUse>, Memory>
    requires system { Agrees r.now.tree.table.rows (system_of s.now) }
    requires headers { map (λ h. h.row) headers.now
        ≡ map Some (subsystems_of r.now.tree.table.rows (row_of (system_of s.now))) }
    ensures { IfOk result (λ v. v.items ≡ map (child_use_of (diagram_of r.now)) headers.now) }
{
    let mut uses = Vec::new(alloc);
    for (i, header) in headers.iter().enumerate() {
        uses.push(child_use(alloc, r, child(s, i), header)?)?;
    }
    Ok(uses)
}

// A child with the wires that enter it.
fn child_use(
    alloc: Global,
    r: &Resolved,
    child: &Subsystem,
    header: &Header,
) -> Result<ChildUse, Memory>
    requires system { Agrees r.now.tree.table.rows (system_of child.now) }
    requires row { header.now.row ≡ row_of (system_of child.now) }
    requires inside { IsInTable r.now.tree.table.rows header.now.row }
    ensures { IfOk result (λ u. u ≡ child_use_of (diagram_of r.now) header.now) }
{
    let inports = inports(alloc, r, own(child))?;
    Ok(ChildUse {
        header: copy_header(alloc, header)?,
        wires: entering_wires(alloc, r, &inports)?,
        controls: control_wires(alloc, r, header.row)?,
    })
}

/// The wires of a system's controls.
pub(crate) fn control_wires(alloc: Global, r: &Resolved, s: Option<u32>) -> Result<Wires, Memory>
    requires { IsInTable r.now.tree.table.rows s }
    ensures wires { IfOk result (λ wires. wires ≡ control_wires_of r.now.tree.table.rows s) }
    ensures rows { IfOk result (λ wires. All (λ c. c < length r.now.tree.table.rows) wires) }
{
    match s {
        None => Ok(Wires::new(Vec::new(alloc))),
        Some(e) => copy_wires(alloc, r.row(e)),
    }
}
