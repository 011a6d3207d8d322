ghost use Rattle.std.specs.Prelude.{◌≡◌, ◌<◌, Some, All, IfOk, length, map};
ghost use Rattle.diagram_meaning.specs.Diagram.{type_at as type_of_row};
ghost use Rattle.diagram_meaning.specs.Nested.{Agrees, row_of, system_of};
ghost use Rattle.diagram_meaning.specs.ResolvedTree.{diagram_of};
ghost use Rattle.diagram_meaning.specs.Rows.{subsystems_of};
ghost use Rattle.modules_profile.specs.Headers.{header_of};
ghost use Rattle.modules_profile.specs.NodeFacts.{headers_with};
ghost use Rattle.modules_profile.specs.Systems.{IsInTable};

use crate::children::control_wires;
use crate::local_rows::types_of;
use crate::ports::{inports, outports};
use crate::reading::type_at;
use crate::system::{child, control, own};
use crate::{Header, Profile};
use base_core::Memory;
use base_fixed_point::FixType;
use diagram_meaning::{Resolved, Subsystem};
use std::alloc::Global;

/// The headers of the systems directly inside a system, which have these profiles.
pub(crate) fn headers(
    alloc: Global,
    r: &Resolved,
    s: &Subsystem,
    profiles: &[Profile],
) -> Result<Vec<Header>, Memory>
    requires system { Agrees r.now.tree.table.rows (system_of s.now) }
    requires profiles { map (λ p. p.row) profiles.now
        ≡ map Some (subsystems_of r.now.tree.table.rows (row_of (system_of s.now))) }
    ensures { IfOk result (λ v. v.items ≡ headers_with (diagram_of r.now) profiles.now) }
{
    let mut headers = Vec::new(alloc);
    for (i, profile) in profiles.iter().enumerate() {
        headers.push(header(alloc, r, child(s, i), profile)?)?;
    }
    Ok(headers)
}

// The header of a system with this profile.
fn header(alloc: Global, r: &Resolved, s: &Subsystem, profile: &Profile) -> Result<Header, Memory>
    requires system { Agrees r.now.tree.table.rows (system_of s.now) }
    requires row { profile.now.row ≡ row_of (system_of s.now) }
    requires inside { IsInTable r.now.tree.table.rows profile.now.row }
    ensures { IfOk result (λ h. h ≡ header_of (diagram_of r.now) profile.now.row profile.now) }
{
    let inports = inports(alloc, r, own(s))?;
    let outports = outports(alloc, r, own(s))?;
    let controls = control_wires(alloc, r, profile.row)?;
    Ok(Header {
        row: profile.row,
        control: control(s),
        inputs: types_of(alloc, r, &inports)?,
        controls: types_of(alloc, r, controls.wires())?,
        outputs: outputs(alloc, r, &outports)?,
        profile: profile.copied(alloc)?,
    })
}

// Outports with their types.
fn outputs(alloc: Global, r: &Resolved, rows: &[u32]) -> Result<Vec<(u32, FixType)>, Memory>
    requires { All (λ b. b < length r.now.tree.table.rows) rows.now }
    ensures { IfOk result (λ v. v.items ≡ map (λ o. (o, type_of_row r.now.types o)) rows.now) }
{
    let mut outputs = Vec::new(alloc);
    for o in rows {
        outputs.push((*o, type_at(r, *o)))?;
    }
    Ok(outputs)
}
