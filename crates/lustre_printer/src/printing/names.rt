// The names that positions stand for. A position that stands for none has an empty name, which a lawful file never asks for.
ghost use Rattle.std.specs.Prelude.{◌≡◌, take, drop};
ghost use Rattle.c_syntax.specs.Names.{name_at};
ghost use Rattle.lustre_printer.specs.Scopes.{names_in, nodes_in};

use base_core::Text;
use lustre_syntax::LusNode;

/// What an equation can name.
#[derive(Clone, Copy)]
pub(super) struct Scope<'a> {
    pub(super) nodes: &'a [LusNode],
    pub(super) names: &'a [(Text, bool)],
}

const NO_NAME: &[u8] = b"";

impl<'a> Scope<'a> {
    pub(super) fn name(&self, k: u32) -> &'a [u8]
        ensures { result.now ≡ name_at (names_in self.now) k }
    {
        match self.names.get(k as usize) {
            Some(name) => name.0.bytes(),
            None => NO_NAME,
        }
    }

    pub(super) fn node(&self, k: u32) -> &'a [u8]
        ensures { result.now ≡ name_at (nodes_in self.now) k }
    {
        match self.nodes.get(k as usize) {
            Some(node) => node.name.bytes(),
            None => NO_NAME,
        }
    }
}
