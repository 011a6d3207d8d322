ghost use Rattle.std.specs.Prelude.{◌≡◌, IfOk, IfErr, OnOk, None, Err};
ghost use Rattle.std.specs.List.{AllZip};
ghost use Rattle.mdl_tree.specs.Values.{section_tree};
ghost use Rattle.base_refusals.specs.FirstRefusal.{as_plain, least_in, earlier_of};
ghost use Rattle.mdl_systems.specs.Refusals as refused;
ghost use Rattle.mdl_systems.specs.Reading.{AreBlocksOf, IsRead, IsFaultBy, IsFaultless};
ghost use Rattle.mdl_systems.specs.Held.{all_seen};
ghost use Rattle.mdl_systems.specs.Systems.{system_of, tree_of_model};

use crate::lines::least_newer;
use crate::numbers::numbers_refusal;
use crate::outline::{ModelOutlines, Outline};
use crate::outlines::outlines_of;
use crate::placed::{PlacedBlock, ReadModel};
use base_core::Memory;
use base_refusals::{Refusal, earlier};
use diagram_meaning::BuildFault;
use mdl_blocks::{Fault, read_block};
use mdl_params::Defaults;
use mdl_tree::Section;
use std::alloc::Global;

/// The first block that isn't read, and the first with a parameter out of form.
#[derive(Drop)]
pub(crate) struct BlockFaults {
    pub unread: Option<Refusal>,
    pub misformed: Option<Refusal>,
}

impl BlockFaults {
    /// The same with the error of one more block, at this line.
    fn with(self, line: u32, fault: Fault) -> BlockFaults
        ensures unread { as_plain result.unread
            ≡ earlier_of (as_plain self.unread) (refused.unread_at line (Err fault)) }
        ensures misformed { as_plain result.misformed
            ≡ earlier_of (as_plain self.misformed) (refused.misformed_at line (Err fault)) }
    {
        let refusal = Some(fault.refusal_at(line));
        match fault {
            Fault::Unsupported => BlockFaults {
                unread: earlier(self.unread, refusal),
                misformed: self.misformed,
            },
            Fault::Parameter(_) | Fault::Continuous | Fault::FloatType => BlockFaults {
                unread: self.unread,
                misformed: earlier(self.misformed, refusal),
            },
        }
    }
}

/// What was read of a model's blocks: the errors, and where there are none, what each block says.
#[derive(Drop)]
pub(crate) struct BlocksRead<'a> {
    pub faults: BlockFaults,
    pub blocks: Vec<PlacedBlock<'a>>,
}

/// Reads these blocks.
fn read_outlines<'a>(
    alloc: Global,
    defaults: &'a Defaults,
    outlines: &[Outline<'a>],
) -> Result<BlocksRead<'a>, Memory>
    ensures unread { IfOk result (λ r. as_plain r.faults.unread
        ≡ least_in (refused.unread defaults.now) (all_seen outlines.now)) }
    ensures misformed { IfOk result (λ r. as_plain r.faults.misformed
        ≡ least_in (refused.misformed defaults.now) (all_seen outlines.now)) }
    ensures blocks { IfOk result (λ r. IsFaultless r.faults →
        AllZip (IsRead defaults.now) (all_seen outlines.now) r.blocks.items) }
{
    let mut faults = BlockFaults {
        unread: None,
        misformed: None,
    };
    let mut blocks = Vec::with_capacity(alloc, outlines.len())?;
    for outline in outlines {
        match read_block(defaults, outline.peers, outline.section) {
            Ok(block) => blocks.push(PlacedBlock {
                owner: outline.owner,
                block,
            })?,
            Err(fault) => faults = faults.with(outline.section.line, fault),
        }
    }
    Ok(BlocksRead { faults, blocks })
}

/// Reads a model with these defaults and this System: its blocks in the order of the file, each before those inside it, and
/// its systems.
///
/// Fails exactly with the first refusal: `TooDeep` for a subsystem inside 32 others; `TooMany` for more than 20,000 blocks, or
/// for more than 32 Inports or Outports in a system; `Unsupported` for a block that isn't read and for a line in the newer form;
/// `Parameter` for a parameter out of form. Of several with one name that at the least line is reported.
pub fn read_model<'a>(
    alloc: Global,
    defaults: &'a Defaults,
    system: &'a Section,
) -> Result<ReadModel<'a>, BuildFault>
    ensures accepted { OnOk result (refused.model_refusal defaults.now (section_tree system.now)
        ≡ None) }
    ensures blocks { IfOk result (λ m. AreBlocksOf defaults.now (section_tree system.now) m.blocks.items) }
    ensures root { IfOk result (λ m. system_of m.root ≡ tree_of_model (section_tree system.now)) }
    ensures fault { IfErr result (IsFaultBy (refused.model_refusal defaults.now (section_tree system.now))) }
{
    let ModelOutlines {
        blocks: outlines,
        root,
    } = outlines_of(alloc, system)?;
    if let Some(refusal) = numbers_refusal(system, outlines.as_slice()) {
        return Err(BuildFault::Refused(refusal));
    }
    let BlocksRead { faults, blocks } = read_outlines(alloc, defaults, outlines.as_slice())?;
    let newer = least_newer(system, outlines.as_slice());
    if let Some(refusal) = earlier(faults.unread, newer) {
        return Err(BuildFault::Refused(refusal));
    }
    match faults.misformed {
        Some(refusal) => Err(BuildFault::Refused(refusal)),
        None => Ok(ReadModel { blocks, root }),
    }
}
