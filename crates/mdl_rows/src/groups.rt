ghost use Rattle.std.specs.Prelude.{◌≡◌, ◌++◌, ◌∷◌, [], length, IfOk, OnOk};
ghost use Rattle.std.specs.List.{AllByRecursion};
ghost use Rattle.mdl_rows.specs.Grouping as grouping;
ghost use Rattle.mdl_rows.specs.Held.{AreBlocks, AreGroupsOf, IsThere, all_seen, group_of, seen};

use crate::blocks::NumberedBlock;
use base_core::Memory;
use std::alloc::Global;

/// The blocks of a model by their systems: those of the root, those inside each block by its number, and the place of each
/// block among those of its system.
#[derive(Drop)]
pub(crate) struct Groups<'a> {
    pub root: Vec<NumberedBlock<'a>>,
    pub inner: Vec<Vec<NumberedBlock<'a>>>,
    pub places: Vec<usize>,
}

/// So many lists without blocks.
fn empty_lists<'a>(alloc: Global, count: usize) -> Result<Vec<Vec<NumberedBlock<'a>>>, Memory>
    ensures count { IfOk result (λ v. length v.items ≡ count) }
    ensures empty { IfOk result (λ v. AllByRecursion (λ own. own.items ≡ []) v.items) }
{
    let mut lists = Vec::with_capacity(alloc, count)?;
    for _number in 0..count {
        lists.push(Vec::new(alloc))?;
    }
    Ok(lists)
}

/// Adds a block to a list, and gives its place there.
fn push_last<'a>(
    own: &mut Vec<NumberedBlock<'a>>,
    block: NumberedBlock<'a>,
) -> Result<usize, Memory>
    ensures place { IfOk result (λ place. place ≡ length own.old.items) }
    ensures list { OnOk result (own.new.items ≡ own.old.items ++ block.entry ∷ []) }
{
    let place = own.len();
    own.push(block)?;
    Ok(place)
}

impl<'a> Groups<'a> {
    /// The groups of so many blocks, of which none is taken yet.
    #[tactic(auto, using(crate::proofs::GroupLemmas::no_groups))]
    fn empty(alloc: Global, count: usize) -> Result<Groups<'a>, Memory>
        ensures { IfOk result (grouping.AreEmpty count) }
    {
        Ok(Groups {
            root: Vec::new(alloc),
            inner: empty_lists(alloc, count)?,
            places: Vec::with_capacity(alloc, count)?,
        })
    }

    /// Takes the next block.
    fn take(&mut self, block: NumberedBlock<'a>) -> Result<(), Memory>
        requires { IsThere (length self.old.inner.items) block.owner }
        ensures { OnOk result (grouping.Takes self.old self.new (seen block.entry)) }
    {
        let place = match block.owner {
            None => push_last(&mut self.root, block)?,
            Some(owner) => push_last(&mut self.inner[owner as usize], block)?,
        };
        self.places.push(place)?;
        Ok(())
    }

    /// The blocks of a system: of the subsystem block with this number, or of the root.
    pub(crate) fn of(&self, owner: Option<u32>) -> &[NumberedBlock<'a>]
        requires { IsThere (length self.now.inner.items) owner }
        ensures { result.now ≡ group_of self.now owner }
    {
        match owner {
            None => self.root.as_slice(),
            Some(owner) => self.inner[owner as usize].as_slice(),
        }
    }
}

/// The blocks of each system.
pub(crate) fn groups_of<'a>(
    alloc: Global,
    blocks: &[NumberedBlock<'a>],
) -> Result<Groups<'a>, Memory>
    requires { AreBlocks (all_seen blocks.now) }
    ensures { IfOk result (AreGroupsOf (all_seen blocks.now)) }
{
    let mut groups = Groups::empty(alloc, blocks.len())?;
    for block in blocks {
        groups.take(*block)?;
    }
    Ok(groups)
}
