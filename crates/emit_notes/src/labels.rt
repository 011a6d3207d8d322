use base_core::Text;
use mdl_params::BlockType;

/// What the text of a model says of a block, as far as notes repeat it.
#[derive(Drop)]
pub struct Label {
    /// Its BlockType.
    pub block_type: BlockType,
    /// Its port, from 1, if it is an Inport.
    pub inport: Option<u32>,
    /// Its port, from 1, if it is an Outport.
    pub outport: Option<u32>,
    /// Its name.
    pub name: Text,
    /// The line that opens its Block, from 1.
    pub line: u32,
    /// The row of the subsystem around it; none in the root.
    pub owner: Option<usize>,
}

/// What the text of a model says of its blocks.
#[derive(Drop)]
pub struct Labels {
    /// The labels of the blocks, by their rows.
    pub rows: Vec<Label>,
}
