ghost use Rattle.std.specs.Prelude.{◌≡◌, ◌<◌, ⊤, IfOk, MatchOption, None, is_some, option_and_then, option_map, slice_get};
ghost use Rattle.mdl_blocks.specs.Held.{kind_text};
ghost use Rattle.mdl_rows.specs.Models.{blocks_of, kind_of, system_in};
ghost use Rattle.mdl_rows.specs.Wires as wires;
ghost use Rattle.mdl_rows.specs.Refusals.{systems_refusal};
ghost use Rattle.mdl_rows.specs.Held.{AreWiringsOf, IsAmong, IsThere, seen};
ghost use Rattle.mdl_rows.specs.HeldModels.{IsModel, model_of};
ghost use Rattle.mdl_rows.specs.Wired.{block_count};

use crate::blocks::NumberedBlock;
use crate::lists::push_if_there;
use crate::model::ModelBlocks;
use crate::wirings::Wirings;
use base_core::{Memory, Wires};
use mdl_blocks::BlockKind;
use mdl_wiring::Source;
use std::alloc::Global;

/// Where the inputs of a block read from.
fn sources_of<'w>(model: &ModelBlocks, wirings: &'w Wirings, block: &NumberedBlock) -> &'w [Source]
    requires model { IsModel model.now }
    requires among { IsAmong (model_of model.now).blocks (seen block.now) }
    requires wirings { AreWiringsOf (model_of model.now) wirings.now }
    requires accepted { systems_refusal (model_of model.now) ≡ None }
    ensures { result.now ≡ wires.block_sources (model_of model.now) (seen block.now) }
{
    match wirings.of(block.owner) {
        Some(wiring) => wiring.sources(model.place(block)),
        None => &[],
    }
}

/// The block at a place in a system.
fn own_block<'b, 'a>(
    model: &'b ModelBlocks<'_, 'a>,
    owner: Option<u32>,
    member: usize,
) -> Option<&'b NumberedBlock<'a>>
    requires model { IsModel model.now }
    requires owner { IsThere (block_count model.now) owner }
    ensures block { option_map (λ b. seen b.now) result
        ≡ slice_get (blocks_of (model_of model.now).blocks owner) member }
    ensures among { MatchOption result ⊤ (λ b. IsAmong (model_of model.now).blocks (seen b.now)) }
{
    model.groups.of(owner).get(member)
}

/// Whether a block is a subsystem.
fn has_system(kind: &BlockKind) -> bool
    ensures { result ≡ is_some (system_in (kind_text kind.now)) }
{
    matches!(kind, BlockKind::SubSystem { .. })
}

/// The row of an output of a block: of a subsystem that of its Outport with this port, of any other block its own.
fn output_row(model: &ModelBlocks, block: &NumberedBlock, output: u32) -> Option<u32>
    requires model { IsModel model.now }
    requires among { IsAmong (model_of model.now).blocks (seen block.now) }
    ensures { result ≡ wires.output_row (model_of model.now).blocks (seen block.now)
        (system_in (kind_of (seen block.now))) output }
{
    if has_system(&block.block.body.kind) {
        model.outport(block.number, output)
    } else {
        Some(block.number)
    }
}

/// The row of a source in a system.
fn source_row(model: &ModelBlocks, owner: Option<u32>, source: Source) -> Option<u32>
    requires model { IsModel model.now }
    requires owner { IsThere (block_count model.now) owner }
    ensures { result ≡ wires.source_row (model_of model.now).blocks owner source }
{
    let block = own_block(model, owner, source.member)?;
    output_row(model, block, source.output)
}

/// The rows of these sources in a system.
fn source_rows(
    alloc: Global,
    model: &ModelBlocks,
    owner: Option<u32>,
    sources: &[Source],
) -> Result<Vec<u32>, Memory>
    requires model { IsModel model.now }
    requires owner { IsThere (block_count model.now) owner }
    ensures { IfOk result (λ v. v.items
        ≡ wires.source_rows (model_of model.now).blocks owner sources.now) }
{
    let mut rows = Vec::new(alloc);
    for source in sources {
        push_if_there(&mut rows, source_row(model, owner, *source))?;
    }
    Ok(rows)
}

/// The row that enters a port of a subsystem block.
fn entering_row(
    model: &ModelBlocks,
    wirings: &Wirings,
    port: u32,
    block: &NumberedBlock,
) -> Option<u32>
    requires model { IsModel model.now }
    requires among { IsAmong (model_of model.now).blocks (seen block.now) }
    requires wirings { AreWiringsOf (model_of model.now) wirings.now }
    requires accepted { systems_refusal (model_of model.now) ≡ None }
    ensures { result ≡ wires.entering_row (model_of model.now) port (seen block.now) }
{
    let sources = sources_of(model, wirings, block);
    let source = sources.get(port.saturating_sub(1) as usize)?;
    source_row(model, block.owner, *source)
}

/// The rows that enter the Inport with this port of a system.
fn entering(
    alloc: Global,
    model: &ModelBlocks,
    wirings: &Wirings,
    port: u32,
    owner: Option<u32>,
) -> Result<Vec<u32>, Memory>
    requires model { IsModel model.now }
    requires owner { IsThere (block_count model.now) owner }
    requires wirings { AreWiringsOf (model_of model.now) wirings.now }
    requires accepted { systems_refusal (model_of model.now) ≡ None }
    ensures { IfOk result (λ v. v.items ≡ wires.entering (model_of model.now) port owner) }
{
    let mut rows = Vec::new(alloc);
    if let Some(owner) = owner {
        push_if_there(
            &mut rows,
            entering_row(model, wirings, port, model.block(owner)),
        )?;
    }
    Ok(rows)
}

/// The rows that control a subsystem block, the enable first.
fn controlling(
    alloc: Global,
    model: &ModelBlocks,
    wirings: &Wirings,
    block: &NumberedBlock,
) -> Result<Vec<u32>, Memory>
    requires model { IsModel model.now }
    requires among { IsAmong (model_of model.now).blocks (seen block.now) }
    requires wirings { AreWiringsOf (model_of model.now) wirings.now }
    requires accepted { systems_refusal (model_of model.now) ≡ None }
    ensures { IfOk result (λ v. v.items ≡ wires.controlling (model_of model.now) (seen block.now)) }
{
    let sources = sources_of(model, wirings, block);
    let inports = model.inside(block.number).inports as usize;
    let controls = sources.get(inports..).unwrap_or(&[]);
    source_rows(alloc, model, block.owner, controls)
}

/// The rows that the row of a block reads.
pub(crate) fn row_wires(
    alloc: Global,
    model: &ModelBlocks,
    wirings: &Wirings,
    block: &NumberedBlock,
) -> Result<Wires, Memory>
    requires model { IsModel model.now }
    requires among { IsAmong (model_of model.now).blocks (seen block.now) }
    requires wirings { AreWiringsOf (model_of model.now) wirings.now }
    requires accepted { systems_refusal (model_of model.now) ≡ None }
    ensures { IfOk result (λ w. w ≡ wires.row_wires (model_of model.now) (seen block.now)) }
{
    let rows = match block.block.body.kind {
        BlockKind::Inport { port } => entering(alloc, model, wirings, port, block.owner)?,
        BlockKind::SubSystem { .. } => controlling(alloc, model, wirings, block)?,
        _ => source_rows(alloc, model, block.owner, sources_of(model, wirings, block))?,
    };
    Ok(Wires::new(rows))
}
