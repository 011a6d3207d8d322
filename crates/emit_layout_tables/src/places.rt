ghost use Rattle.std.specs.Prelude.{◌≡◌, ◌≤◌, ◌++◌, All, IfOk, OnOk, flat_map, length, map};
ghost use Rattle.std.specs.List.{enumerate_from, range_with_len};
ghost use Rattle.modules_profile.specs.LawfulLocals.{IsChild};
ghost use Rattle.modules_profile.specs.Headers.{header_functions};
ghost use Rattle.emit_system_spec.specs.declared.node.Place.TheVariants.{Row as row_place, Call as call_place};
ghost use Rattle.emit_system_spec.specs.Places as places;

use base_core::Memory;
use emit_system_spec::Place;
use modules_profile::{ChildUse, Local};
use std::alloc::Global;

/// The nodes of a system by their places among its rows and children.
pub(crate) fn node_places(alloc: Global, local: &Local) -> Result<Vec<Place>, Memory>
    requires { All IsChild local.now.children }
    ensures { IfOk result (λ v. v.items ≡ places.node_places local.now) }
{
    let mut nodes = row_places(alloc, local.rows.len())?;
    push_children(local.children.as_slice(), &mut nodes)?;
    Ok(nodes)
}

// So many own rows.
fn row_places(alloc: Global, count: usize) -> Result<Vec<Place>, Memory>
    ensures { IfOk result (λ v. v.items ≡ map row_place (range_with_len 0 count)) }
{
    let mut nodes = Vec::new(alloc);
    for place in 0..count {
        nodes.push(Place::Row(place))?;
    }
    Ok(nodes)
}

// Adds the calls of the functions of each child.
fn push_children(children: &[ChildUse], nodes: &mut Vec<Place>) -> Result<(), Memory>
    requires { All IsChild children.now }
    ensures { OnOk result (nodes.new.items
        ≡ nodes.old.items ++ flat_map places.call_places (enumerate_from 0 children.now)) }
{
    for (place, child) in children.iter().enumerate() {
        push_calls(place, child, nodes)?;
    }
    Ok(())
}

// Adds the calls of the functions of the child at a place; the root is no child.
fn push_calls(place: usize, child: &ChildUse, nodes: &mut Vec<Place>) -> Result<(), Memory>
    requires { length (header_functions child.now.header) ≤ 32 }
    ensures { OnOk result (nodes.new.items ≡ nodes.old.items ++ places.call_places (place, child.now)) }
{
    match child.header.row {
        None => Ok(()),
        Some(_) => push_calls_of(place, function_count(child), nodes),
    }
}

// Adds the calls of so many functions of the child at a place.
fn push_calls_of(place: usize, functions: usize, nodes: &mut Vec<Place>) -> Result<(), Memory>
    requires { functions ≤ 32 }
    ensures { OnOk result (nodes.new.items
        ≡ nodes.old.items ++ map (call_place place) (range_with_len 1 functions)) }
{
    for k in 0..functions {
        nodes.push(Place::Call {
            child: place,
            function: k as u8 + 1,
        })?;
    }
    Ok(())
}

/// How many functions a child has.
pub(crate) fn function_count(child: &ChildUse) -> usize
    ensures { result ≡ length (header_functions child.now.header) }
{
    child.header.profile.functions.len()
}
