use mdl_tree::Section;

/// A system of a model: its System in the text, its own blocks, and the systems directly inside it.
#[derive(Drop)]
pub struct SystemText<'a> {
    /// The number of its subsystem block, in the order of the file from 0; none for the root.
    pub row: Option<usize>,
    /// The line of that block, or of the root's System.
    pub line: u32,
    /// Its System.
    pub section: &'a Section,
    /// The numbers of its own blocks, in the order of the file.
    pub own: Vec<usize>,
    /// The systems directly inside it, in that order.
    pub children: Vec<SystemText<'a>>,
}
