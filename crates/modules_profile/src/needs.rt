ghost use Rattle.std.specs.Prelude.{◌≡◌, ◌↔◌, ◌<◌, ◌^◌, ℕ, suc, All, IfOk, IsBitSet, bit_or, length, slice_index};
ghost use Rattle.std.specs.List.{AllZip};
ghost use Rattle.diagram_blocks.specs.declared.Kind.TheVariants.{Inport as InportKind};
ghost use Rattle.modules_profile.specs.LawfulLocals.{IsLocal};
ghost use Rattle.modules_profile.specs.LocalNodes.{AreNodesOf};
ghost use Rattle.modules_profile.specs.NodeInputs.{AreInputBits, AreNodeInputs, IsInportAt};

use crate::{Local, LocalRow, Nodes};
use base_core::{Memory, input_bit};
use base_graph::masks;
use diagram_blocks::Kind;
use std::alloc::Global;

/// The inputs that each output of a system needs at the same tick, by port: bit k - 1 for input k, bit 32 for an
/// enable, bit 33 for a trigger.
pub(crate) fn output_needs(alloc: Global, local: &Local, nodes: &Nodes) -> Result<Vec<u64>, Memory>
    requires local { IsLocal local.now }
    requires nodes { AreNodesOf local.now nodes.now }
    ensures { IfOk result (λ v. AreNodeInputs local.now v.items) }
{
    let graph = nodes.graph();
    let source = input_bits(alloc, local.rows(), nodes.count())?;
    let reached = masks(alloc, graph, &source)?;
    masks_at(alloc, &reached, local.control().mask(), nodes.outputs())
}

// The masks at some places, with that of the controls.
fn masks_at(
    alloc: Global,
    reached: &[u64],
    control: u64,
    places: &[u32],
) -> Result<Vec<u64>, Memory>
    requires { All (λ b. b < length reached.now) places.now }
    ensures { IfOk result (λ v. AllZip (λ b mask. (mask ≡ bit_or (slice_index reached.now b) control)
        × (mask < 2 ^ 64)) places.now v.items) }
{
    let mut masks = Vec::new(alloc);
    for b in places {
        masks.push(reached[*b as usize] | control)?;
    }
    Ok(masks)
}

// For each of so many nodes its bit, where it is an Inport among the own rows.
fn input_bits(alloc: Global, rows: &[LocalRow], count: usize) -> Result<Vec<u64>, Memory>
    ensures { IfOk result (λ v. AreInputBits rows.now count v.items) }
{
    let mut bits = Vec::new(alloc);
    for a in 0..count {
        bits.push(place_bit(rows, a))?;
    }
    Ok(bits)
}

// The bit of the row at a place, where it is an Inport.
fn place_bit(rows: &[LocalRow], a: usize) -> u64
    ensures { (k : ℕ) → IsBitSet result k ↔ ((k < 32) × IsInportAt rows.now a (suc k)) }
{
    if a < rows.len() {
        kind_bit(&rows[a].kind)
    } else {
        0
    }
}

fn kind_bit(kind: &Kind) -> u64
    ensures { (k : ℕ) → IsBitSet result k ↔ ((k < 32) × (kind.now ≡ InportKind (suc k))) }
{
    match kind {
        Kind::Inport { port } => input_bit(*port),
        _ => 0,
    }
}
