ghost use Rattle.std.specs.Prelude.{◌≡◌, ◌<◌, ◌^◌, IfOk, length};
ghost use Rattle.mdl_tree.specs.Values.{section_tree};
ghost use Rattle.mdl_rows.specs.Held.{AreBlocks, model_seen, numbered_from};
ghost use Rattle.mdl_rows.specs.HeldModels.{IsModel, model_of};

use crate::blocks::numbered;
use crate::groups::groups_of;
use crate::interiors::interiors_of;
use crate::model::ModelBlocks;
use base_core::Memory;
use mdl_systems::PlacedBlock;
use mdl_tree::Section;
use std::alloc::Global;

/// The model of a System with these blocks.
pub(crate) fn model_of<'m, 'a>(
    alloc: Global,
    root: &'m Section,
    placed: &[PlacedBlock<'a>],
) -> Result<ModelBlocks<'m, 'a>, Memory>
    requires blocks { AreBlocks (numbered_from 0 placed.now) }
    requires at_most { length placed.now < 2 ^ 32 }
    ensures lawful { IfOk result IsModel }
    ensures model { IfOk result (λ m. model_of m ≡ model_seen (section_tree root.now) placed.now) }
{
    let blocks = numbered(alloc, placed)?;
    let groups = groups_of(alloc, blocks.as_slice())?;
    let interiors = interiors_of(alloc, &groups, blocks.as_slice())?;
    Ok(ModelBlocks {
        root,
        blocks,
        groups,
        interiors,
    })
}
