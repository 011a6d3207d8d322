use crate::system::SystemText;
use mdl_blocks::Peers;
use mdl_tree::Section;

/// A block where it is: its number in the order of the file, from 0, the number of the subsystem block around it, how
/// many of these are around it, how many Inports and Outports its system has, and its section.
#[derive(Clone, Copy, Drop)]
pub(crate) struct Outline<'a> {
    pub number: usize,
    pub owner: Option<usize>,
    pub depth: usize,
    pub peers: Peers,
    pub section: &'a Section,
}

/// The blocks of a model in the order of the file, and the system of its root.
#[derive(Drop)]
pub(crate) struct ModelOutlines<'a> {
    pub blocks: Vec<Outline<'a>>,
    pub root: SystemText<'a>,
}
