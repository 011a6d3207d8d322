use crate::system::SystemText;
use mdl_blocks::Block;
use mdl_tree::Section;

/// A model of a file, and the System in it that holds its blocks.
#[derive(Clone, Copy, Drop)]
pub struct ModelSections<'a> {
    /// The section of the model.
    pub model: &'a Section,
    /// The section of its System.
    pub system: &'a Section,
}

/// A block of a model, and where it is.
#[derive(Clone, Copy, Drop)]
pub struct PlacedBlock<'a> {
    /// The number of the subsystem block around it, in the order of the file from 0; none in the root.
    pub owner: Option<usize>,
    /// What the block says.
    pub block: Block<'a>,
}

/// What was read of a model: its blocks in the order of the file, each before those inside it, and the system of its root.
#[derive(Drop)]
pub struct ReadModel<'a> {
    /// The blocks, by their numbers.
    pub blocks: Vec<PlacedBlock<'a>>,
    /// The system of the root, with those inside it.
    pub root: SystemText<'a>,
}
