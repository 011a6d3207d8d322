ghost use Rattle.std.specs.Prelude.{◌≡◌, ◌<◌, ◌^◌, IfOk, length};
ghost use Rattle.mdl_rows.specs.Held.{AreBlocks, IsThere, all_seen, numbered_from};

use base_core::Memory;
use mdl_blocks::Block;
use mdl_systems::PlacedBlock;
use std::alloc::Global;

/// A block of a model: its number in the order of the file, from 0; the number of the subsystem block around it, none in the
/// root; and what it says.
#[derive(Clone, Copy, Drop)]
pub(crate) struct NumberedBlock<'a> {
    pub number: u32,
    pub owner: Option<u32>,
    pub block: Block<'a>,
}

/// The number of an owner in 32 bits.
fn narrow(owner: Option<usize>) -> Option<u32>
    requires { IsThere (2 ^ 32) owner }
    ensures { result ≡ owner }
{
    match owner {
        Some(owner) => Some(owner as u32),
        None => None,
    }
}

/// Blocks as they were read, with their numbers.
pub(crate) fn numbered<'a>(
    alloc: Global,
    blocks: &[PlacedBlock<'a>],
) -> Result<Vec<NumberedBlock<'a>>, Memory>
    requires blocks { AreBlocks (numbered_from 0 blocks.now) }
    requires at_most { length blocks.now < 2 ^ 32 }
    ensures { IfOk result (λ v. all_seen v.items ≡ numbered_from 0 blocks.now) }
{
    let mut numbered = Vec::with_capacity(alloc, blocks.len())?;
    for (number, placed) in blocks.iter().enumerate() {
        numbered.push(NumberedBlock {
            number: number as u32,
            owner: narrow(placed.owner),
            block: placed.block,
        })?;
    }
    Ok(numbered)
}
