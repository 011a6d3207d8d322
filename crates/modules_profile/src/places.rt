ghost use Rattle.std.specs.Prelude.{◌≡◌, ◌<◌, ◌^◌, IfOk, length};
ghost use Rattle.diagram_blocks.specs.Kinds.{is_outport as is_outport_kind};
ghost use Rattle.modules_profile.specs.Places.{place_with, places_by_port, ported_places};

use crate::LocalRow;
use base_core::Memory;
use std::alloc::Global;

/// The places of the Outports among the rows of a system, by port.
pub(crate) fn outport_places(alloc: Global, rows: &[LocalRow]) -> Result<Vec<u32>, Memory>
    requires { length rows.now < 2 ^ 32 }
    ensures { IfOk result (λ v. v.items ≡ places_by_port (ported_places is_outport_kind rows.now)) }
{
    let outports = outports(alloc, rows)?;
    let mut places = Vec::new(alloc);
    for k in 0..outports.len() {
        if let Some(place) = place_of(&outports, k + 1) {
            places.push(place)?;
        }
    }
    Ok(places)
}

// The place and the port of each Outport, in the order of the file.
fn outports(alloc: Global, rows: &[LocalRow]) -> Result<Vec<(u32, u32)>, Memory>
    requires { length rows.now < 2 ^ 32 }
    ensures { IfOk result (λ v. v.items ≡ ported_places is_outport_kind rows.now) }
{
    let mut outports = Vec::new(alloc);
    for (place, row) in rows.iter().enumerate() {
        if row.kind.is_outport() {
            outports.push((place as u32, row.kind.port()))?;
        }
    }
    Ok(outports)
}

// The place of the first of some rows with the port.
fn place_of(ported: &[(u32, u32)], port: usize) -> Option<u32>
    ensures { result ≡ place_with ported.now port }
{
    for (place, k) in ported {
        if *k as usize == port {
            return Some(*place);
        }
    }
    None
}
