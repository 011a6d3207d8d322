// Nodes in the order of a file, each found by its name.
ghost use Rattle.std.specs.Prelude.{◌≡◌, ◌++◌, ◌∷◌, [], false, None, Some, MatchOption, map, slice_get, bytes_eq, OnOk};
ghost use Rattle.std.specs.List.{position_from};
ghost use Rattle.c_syntax.specs.Outputs.{has_name};
ghost use Rattle.lustre_syntax.specs.Plain.{node_tree};
ghost use Rattle.lustre_syntax.specs.Tree.{node_texts};
ghost use Rattle.lustre_resolver.specs.Scopes.{nodes_of};

use crate::known::Nodes;
use base_core::Memory;
use c_outputs::NameTable;
use lustre_syntax::LusNode;
use std::alloc::Global;

impl<'a> Nodes<'a> {
    /// No nodes.
    pub(crate) fn new(alloc: Global) -> Nodes<'a>
        ensures { nodes_of result ≡ [] }
    {
        Nodes {
            items: Vec::new(alloc),
            names: NameTable::new(alloc),
        }
    }

    /// Whether a node has this name.
    pub(crate) fn contains(&self, name: &[u8]) -> bool
        ensures { result ≡ has_name (node_texts (nodes_of self.now)) name.now }
    {
        self.names.contains(name)
    }

    /// The node of this name, with its position.
    pub(crate) fn find(&self, name: &[u8]) -> Option<(u32, &LusNode)>
        ensures { let place = position_from (bytes_eq name.now) 0 (node_texts (nodes_of self.now)) in
            MatchOption result (place ≡ None) (λ found. (place ≡ Some found.0)
            × (slice_get (nodes_of self.now) found.0 ≡ Some (node_tree found.1.now))) }
    {
        match self.names.position(name) {
            Some(k) => Some((k, &self.items[k as usize])),
            None => None,
        }
    }

    /// One more node, whose name is new.
    pub(crate) fn push(&mut self, name: &'a [u8], node: LusNode) -> Result<(), Memory>
        requires new { has_name (node_texts (nodes_of self.old)) name.now ≡ false }
        requires named { node.name ≡ name.now }
        ensures { OnOk result (nodes_of self.new ≡ nodes_of self.old ++ node_tree node ∷ []) }
    {
        self.items.push(node)?;
        match self.names.push(name) {
            Ok(()) => Ok(()),
            Err(memory) => {
                self.items.pop();
                Err(memory)
            }
        }
    }
}
