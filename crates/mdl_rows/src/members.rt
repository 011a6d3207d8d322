ghost use Rattle.std.specs.Prelude.{◌≡◌, ◌<◌, IfOk, length, map, slice_get, All, Some};
ghost use Rattle.mdl_wiring.specs.Members.{member_seen, members_seen};
ghost use Rattle.mdl_rows.specs.Models.{blocks_of};
ghost use Rattle.mdl_rows.specs.Interiors.{inside_of, control_of, outport_of};
ghost use Rattle.mdl_rows.specs.Wires.{member_of, place_of};
ghost use Rattle.mdl_rows.specs.Held.{IsAmong, IsInteriorOf, all_seen, seen};
ghost use Rattle.mdl_rows.specs.HeldModels.{IsModel, model_of};

use crate::blocks::NumberedBlock;
use crate::interiors::Interior;
use crate::model::ModelBlocks;
use base_core::{Control, Memory};
use mdl_wiring::{Inside, Member, Shape};
use std::alloc::Global;

impl<'m, 'a> ModelBlocks<'m, 'a> {
    /// What is inside the block with this number.
    fn interior(&self, number: u32) -> &Interior
        requires model { IsModel self.now }
        requires number { number < length (model_of self.now).blocks }
        ensures { IsInteriorOf (blocks_of (model_of self.now).blocks (Some number)) result.now }
    {
        &self.interiors.as_slice()[number as usize]
    }

    /// The port blocks inside the block with this number.
    pub(crate) fn inside(&self, number: u32) -> Inside
        requires model { IsModel self.now }
        requires number { number < length (model_of self.now).blocks }
        ensures { result ≡ inside_of (model_of self.now).blocks number }
    {
        self.interior(number).inside
    }

    /// How the block with this number is controlled, where it is a subsystem.
    pub(crate) fn control(&self, number: u32) -> Control
        requires model { IsModel self.now }
        requires number { number < length (model_of self.now).blocks }
        ensures { result ≡ control_of (model_of self.now).blocks number }
    {
        self.interior(number).control
    }

    /// The number of the Outport with this port inside the block with this number.
    pub(crate) fn outport(&self, number: u32, port: u32) -> Option<u32>
        requires model { IsModel self.now }
        requires number { number < length (model_of self.now).blocks }
        ensures { result ≡ outport_of (model_of self.now).blocks number port }
    {
        self.interior(number).outport(port)
    }

    /// The block with this number.
    pub(crate) fn block(&self, number: u32) -> &NumberedBlock<'a>
        requires model { IsModel self.now }
        requires number { number < length (model_of self.now).blocks }
        ensures block { slice_get (model_of self.now).blocks number ≡ Some (seen result.now) }
        ensures among { IsAmong (model_of self.now).blocks (seen result.now) }
    {
        let blocks = self.blocks.as_slice();
        &blocks[number as usize]
    }

    /// The place of a block among those of its system.
    pub(crate) fn place(&self, block: &NumberedBlock<'a>) -> usize
        requires model { IsModel self.now }
        requires among { IsAmong (model_of self.now).blocks (seen block.now) }
        ensures { result ≡ place_of (model_of self.now).blocks (seen block.now) }
    {
        let places = self.groups.places.as_slice();
        places[block.number as usize]
    }

    /// What lines see of a block.
    pub(crate) fn member(&self, block: &NumberedBlock<'a>) -> Member<'a>
        requires model { IsModel self.now }
        requires among { IsAmong (model_of self.now).blocks (seen block.now) }
        ensures { member_seen result ≡ member_of (model_of self.now).blocks (seen block.now) }
    {
        Member {
            name: block.block.name,
            line: block.block.line,
            shape: Shape::of(&block.block.body.kind, self.inside(block.number)),
        }
    }

    /// What lines see of some blocks.
    pub(crate) fn members(
        &self,
        alloc: Global,
        own: &[NumberedBlock<'a>],
    ) -> Result<Vec<Member<'a>>, Memory>
        requires model { IsModel self.now }
        requires among { All (IsAmong (model_of self.now).blocks) (all_seen own.now) }
        ensures { IfOk result (λ v. members_seen v.items
            ≡ map (member_of (model_of self.now).blocks) (all_seen own.now)) }
    {
        let mut members = Vec::with_capacity(alloc, own.len())?;
        for block in own {
            members.push(self.member(block))?;
        }
        Ok(members)
    }
}
