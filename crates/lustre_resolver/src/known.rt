// What is known at a place of a file.
ghost use Rattle.std.specs.Prelude.{◌≡◌, map};

use base_core::Text;
use c_outputs::NameTable;
use lustre_syntax::LusNode;

/// The names of a node with their types, each found at its position.
#[derive(Drop)]
pub(crate) struct Names<'a> {
    pub(crate) declared: Vec<(Text, bool)>,
    pub(crate) places: NameTable<'a>,
    pub(crate) ghost named: { places ≡ map (λ x. x.0) declared.items },
}

/// Nodes in order, each found by its name.
#[derive(Drop)]
pub(crate) struct Nodes<'a> {
    pub(crate) items: Vec<LusNode>,
    pub(crate) names: NameTable<'a>,
    pub(crate) ghost named: { names ≡ map (λ n. n.name) items.items },
}

/// The nodes before that of an equation, and the names of that node, the first of which are its inputs.
#[derive(Drop)]
pub(crate) struct Place<'k, 'a> {
    pub(crate) earlier: &'k Nodes<'a>,
    pub(crate) names: &'k Names<'a>,
    pub(crate) inputs: u32,
}
