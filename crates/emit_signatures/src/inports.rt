ghost use Rattle.std.specs.Prelude.{◌≡◌, IfOk, filter_map, slice_get, option_and_then};
ghost use Rattle.emit_system_spec.specs.Heads.{inport_at as port_at_place, inport_of as port_of_inport};

use base_core::Memory;
use emit_system_spec::Place;
use modules_profile::{Local, LocalRow};
use std::alloc::Global;

/// The ports of the Inports among some nodes, where the places of all nodes are given.
pub(crate) fn inports_among(
    alloc: Global,
    local: &Local,
    places: &[Place],
    nodes: &[u32],
) -> Result<Vec<u32>, Memory>
    ensures { IfOk result (λ v. v.items
        ≡ filter_map (λ n. option_and_then (port_at_place local.now) (slice_get places.now n))
        nodes.now) }
{
    let mut ports = Vec::new(alloc);
    for node in nodes {
        if let Some(port) = inport_at(local, places, *node) {
            ports.push(port)?;
        }
    }
    Ok(ports)
}

// The port of the Inport that a node is.
fn inport_at(local: &Local, places: &[Place], node: u32) -> Option<u32>
    ensures { result ≡ option_and_then (port_at_place local.now) (slice_get places.now node) }
{
    match places.get(node as usize) {
        Some(place) => inport_in(local, *place),
        None => None,
    }
}

fn inport_in(local: &Local, place: Place) -> Option<u32>
    ensures { result ≡ port_at_place local.now place }
{
    match place {
        Place::Row(p) => match local.rows.get(p) {
            Some(row) => inport_of(row),
            None => None,
        },
        Place::Call { .. } => None,
    }
}

// The port of an Inport.
fn inport_of(row: &LocalRow) -> Option<u32>
    ensures { result ≡ port_of_inport row.now }
{
    if row.kind.is_inport() {
        Some(row.kind.port())
    } else {
        None
    }
}
