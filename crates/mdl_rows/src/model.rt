use crate::blocks::NumberedBlock;
use crate::groups::Groups;
use crate::interiors::Interior;
use mdl_tree::Section;

/// A model whose blocks are read: the System of its root, its blocks by their numbers, those of each system, and what is
/// inside each block.
#[derive(Drop)]
pub(crate) struct ModelBlocks<'m, 'a> {
    pub root: &'m Section,
    pub blocks: Vec<NumberedBlock<'a>>,
    pub groups: Groups<'a>,
    pub interiors: Vec<Interior>,
}
