ghost use Rattle.std.specs.Prelude.{◌≡◌, IfOk, option_map};
ghost use Rattle.base_refusals.specs.FirstRefusal.{as_plain};
ghost use Rattle.mdl_tree.specs.Values.{section_tree};
ghost use Rattle.mdl_rows.specs.Refusals.{systems_refusal};
ghost use Rattle.mdl_rows.specs.Held.{AreWiringsOf, IsAmong, IsThere, seen};
ghost use Rattle.mdl_rows.specs.HeldModels.{IsModel, model_of};
ghost use Rattle.mdl_rows.specs.Wired as wired;

use crate::blocks::NumberedBlock;
use crate::model::ModelBlocks;
use base_core::Memory;
use base_refusals::{Refusal, first_refusal};
use mdl_blocks::BlockKind;
use mdl_tree::Section;
use mdl_wiring::{Wiring, WiringFault, wire};
use std::alloc::Global;

/// What was found of the lines of a system: its first refusal, or else where its inputs read from.
#[derive(Drop)]
pub(crate) struct SystemWired {
    pub refusal: Option<Refusal>,
    pub wiring: Option<Wiring>,
}

/// Where the inputs of the blocks of all systems read from: of the root, and of the system inside each block, if it is a
/// subsystem.
#[derive(Drop)]
pub(crate) struct Wirings {
    pub root: Option<Wiring>,
    pub inner: Vec<Option<Wiring>>,
}

impl Wirings {
    /// Where the inputs of the blocks of a system read from.
    pub(crate) fn of(&self, owner: Option<u32>) -> Option<&Wiring>
        ensures { option_map (λ w. w.now) result ≡ wired.wiring_of self.now owner }
    {
        match owner {
            None => self.root.as_ref(),
            Some(owner) => match self.inner.get(owner as usize) {
                Some(wiring) => wiring.as_ref(),
                None => None,
            },
        }
    }
}

/// What was found of the lines of all systems: the first refusal, and where the inputs read from.
#[derive(Drop)]
pub(crate) struct SystemsWired {
    pub refusal: Option<Refusal>,
    pub wirings: Wirings,
}

/// How the lines of a system lead: of the subsystem block with this number, or of the root.
fn system_wired(
    alloc: Global,
    model: &ModelBlocks,
    row: Option<u32>,
    section: &Section,
) -> Result<SystemWired, Memory>
    requires model { IsModel model.now }
    requires row { IsThere (wired.block_count model.now) row }
    ensures { IfOk result
        (λ found. wired.IsFound (model_of model.now)
        (record { row = row; items = (section_tree section.now).items }) found) }
{
    let members = model.members(alloc, model.groups.of(row))?;
    match wire(alloc, members.as_slice(), section, row.is_none()) {
        Ok(wiring) => Ok(SystemWired {
            refusal: None,
            wiring: Some(wiring),
        }),
        Err(WiringFault::Refused(refusal)) => Ok(SystemWired {
            refusal: Some(refusal),
            wiring: None,
        }),
        Err(WiringFault::Memory) => Err(Memory),
    }
}

/// The same of the system inside a block, if it is a subsystem.
fn inner_wired(
    alloc: Global,
    model: &ModelBlocks,
    block: &NumberedBlock,
) -> Result<SystemWired, Memory>
    requires model { IsModel model.now }
    requires among { IsAmong (model_of model.now).blocks (seen block.now) }
    ensures { IfOk result (wired.IsInnerFound (model_of model.now) (seen block.now)) }
{
    match block.block.body.kind {
        BlockKind::SubSystem { system } => {
            system_wired(alloc, model, Some(block.number), system)
        }
        _ => Ok(SystemWired {
            refusal: None,
            wiring: None,
        }),
    }
}

/// How the lines of all systems lead.
pub(crate) fn systems_wired(alloc: Global, model: &ModelBlocks) -> Result<SystemsWired, Memory>
    requires { IsModel model.now }
    ensures refusal { IfOk result (λ found. as_plain found.refusal ≡ systems_refusal (model_of model.now)) }
    ensures wirings { IfOk result (λ found. AreWiringsOf (model_of model.now) found.wirings) }
{
    let SystemWired {
        refusal,
        wiring: root,
    } = system_wired(alloc, model, None, model.root)?;
    let mut least = refusal;
    let mut inner = Vec::with_capacity(alloc, model.blocks.len())?;
    for block in model.blocks.as_slice() {
        let SystemWired { refusal, wiring } = inner_wired(alloc, model, block)?;
        least = first_refusal(least, refusal);
        inner.push(wiring)?;
    }
    Ok(SystemsWired {
        refusal: least,
        wirings: Wirings { root, inner },
    })
}
