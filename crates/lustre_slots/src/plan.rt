// The nodes of a file, with the room of each.
ghost use Rattle.std.specs.Prelude.{◌≡◌, length, map, slice_index};
ghost use Rattle.lustre_syntax.specs.Plain.{equation_tree, file_tree};
ghost use Rattle.lustre_syntax.specs.Tree.{node_at};
ghost use Rattle.lustre_slots.specs.Extents.{slots_in};
ghost use Rattle.lustre_slots.specs.Layout.{sizes_of, root_of};

use crate::extents::{Extent, extent_at};
use crate::placed::Placed;
use lustre_syntax::{LusEq, LusFile};

/// A file, with the room of each of its nodes.
#[derive(Drop)]
pub(crate) struct Plan<'a> {
    pub(crate) file: &'a LusFile,
    pub(crate) extents: &'a [Extent],
    ghost sized: { slots_in extents.now ≡ sizes_of (file_tree file.now) },
}

impl Plan<'_> {
    /// How many slots an instance of the node at a position has.
    pub(crate) fn size(&self, node: usize) -> usize
        ensures { result ≡ slice_index (sizes_of (file_tree self.now.file.now)) node }
    {
        extent_at(self.extents, node).slots
    }

    /// The equations of the node at a position; none past the end.
    pub(crate) fn equations(&self, node: usize) -> &[LusEq]
        ensures { map equation_tree result.now
            ≡ (node_at (file_tree self.now.file.now).nodes node).equations }
    {
        match self.file.nodes.get(node) {
            Some(node) => &node.equations,
            None => &[],
        }
    }

    /// How many names it has.
    pub(crate) fn names(&self, node: usize) -> usize
        ensures { result ≡ length (node_at (file_tree self.now.file.now).nodes node).names }
    {
        match self.file.nodes.get(node) {
            Some(node) => node.names.len(),
            None => 0,
        }
    }

    /// How many inputs it has.
    pub(crate) fn inputs(&self, node: usize) -> usize
        ensures { result ≡ (node_at (file_tree self.now.file.now).nodes node).inputs }
    {
        match self.file.nodes.get(node) {
            Some(node) => node.inputs as usize,
            None => 0,
        }
    }

    /// The instance of the last node.
    pub(crate) fn root(&self) -> Placed
        ensures { result ≡ root_of (file_tree self.now.file.now) }
    {
        Placed {
            node: self.file.nodes.len().saturating_sub(1),
            base: 0,
        }
    }
}
