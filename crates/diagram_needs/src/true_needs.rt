ghost use Rattle.std.specs.Prelude.{◌≡◌, ℕ, ◌<◌, ◌^◌, ◌↔◌, suc, length, slice_index, All, IfOk, IsBitSet, IsTrue};
ghost use Rattle.std.specs.Int.Bits.{bit_or};
ghost use Rattle.std.specs.List.{AllZip};
ghost use Rattle.diagram_blocks.specs.declared.Kind.TheVariants.{Inport as InportKind};
ghost use Rattle.diagram_meaning.specs.Rows.{control_at as control_of_row, system_control, same_system as is_same_system};
ghost use Rattle.diagram_meaning.specs.Needs.{AreTrueNeeds};
ghost use Rattle.diagram_meaning.specs.ResolvedTree.{diagram_of};
ghost use Rattle.base_core.specs.Ports.{control_mask as mask_of_control};
ghost use Rattle.diagram_needs.specs.TrueNeeds.{AreInputBits, AreReachedInputs};

use crate::needs_graph::needs_graph;
use crate::outports::outports;
use base_core::{Memory, input_bit};
use base_graph::masks;
use diagram_blocks::Kind;
use diagram_meaning::{Resolved, Row, same_system};
use std::alloc::Global;

/// For each output of a system, by port, the inputs of the system that it needs at the same tick, as a mask: bit k - 1 is
/// input k, bit 32 an enable, and bit 33 a trigger. The system is a subsystem's row, or the whole model.
///
/// In time linear in rows and wires.
pub fn needs_of(alloc: Global, r: &Resolved, system: Option<u32>) -> Result<Vec<u64>, Memory>
    ensures { IfOk result (λ v. AreTrueNeeds (diagram_of r.now) system v.items) }
{
    let rows = r.tree.table().rows.as_slice();
    let reached = reached_inputs(alloc, r, system)?;
    let own = outports(alloc, rows, system)?;
    let control = control_at(rows, system);
    masks_at(alloc, &reached, control, &own)
}

// The masks of some rows, with that of the controls.
fn masks_at(alloc: Global, reached: &[u64], control: u64, rows: &[u32]) -> Result<Vec<u64>, Memory>
    requires { All (λ b. b < length reached.now) rows.now }
    ensures { IfOk result (λ v. AllZip (λ b mask. (mask ≡ bit_or (slice_index reached.now b) control)
        × (mask < 2 ^ 64)) rows.now v.items) }
{
    let mut masks = Vec::new(alloc);
    for b in rows {
        masks.push(reached[*b as usize] | control)?;
    }
    Ok(masks)
}

// The inputs of the system that each row reaches by its needs inside, by the number of the row: bit k - 1 is input k.
fn reached_inputs(alloc: Global, r: &Resolved, system: Option<u32>) -> Result<Vec<u64>, Memory>
    ensures { IfOk result (λ v. AreReachedInputs (diagram_of r.now) system v.items) }
{
    let rows = r.tree.table().rows.as_slice();
    let g = needs_graph(alloc, r, system)?;
    let bits = input_bits(alloc, rows, system)?;
    masks(alloc, &g, &bits)
}

// For each row its bit, where it is an input of the system.
fn input_bits(alloc: Global, rows: &[Row], system: Option<u32>) -> Result<Vec<u64>, Memory>
    ensures { IfOk result (λ v. AreInputBits rows.now system (length rows.now) v.items) }
{
    let mut bits = Vec::new(alloc);
    for b in 0..rows.len() {
        bits.push(row_bit(&rows[b], system))?;
    }
    Ok(bits)
}

// The bit of a row, where it is an input of the system.
fn row_bit(row: &Row, system: Option<u32>) -> u64
    ensures { (k : ℕ) →
        IsBitSet result k
        ↔ ((k < 32)
        × (IsTrue (is_same_system row.now.owner system) × (row.now.kind ≡ InportKind (suc k)))) }
{
    if !same_system(row.owner, system) {
        return 0;
    }
    match row.kind {
        Kind::Inport { port } => input_bit(port),
        _ => 0,
    }
}

// The bits of the system's controls.
fn control_at(rows: &[Row], system: Option<u32>) -> u64
    ensures { result ≡ mask_of_control (system_control rows.now system) }
{
    match system {
        None => 0,
        Some(s) => row_control(rows, s),
    }
}

// The bits of a row's controls.
#[tactic(auto, using(crate::proofs::InputSteps::control_inside, crate::proofs::InputSteps::control_past))]
fn row_control(rows: &[Row], s: u32) -> u64
    ensures { result ≡ mask_of_control (control_of_row rows.now s) }
{
    if s as usize >= rows.len() {
        return 0;
    }
    rows[s as usize].kind.control().mask()
}
