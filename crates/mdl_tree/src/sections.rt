ghost use Rattle.std.specs.Prelude.{◌≡◌, IfOk, option_map, option_to_list};
ghost use Rattle.mdl_tree.specs.Walks.{sections_named};
ghost use Rattle.mdl_tree.specs.Values.{item_alone, section_tree, trees_of};

use crate::tree::{Item, Section};
use base_core::Memory;
use std::alloc::Global;

impl Item {
    /// The item, if it is a section of this name.
    pub fn section_named<'a>(&'a self, name: &[u8]) -> Option<&'a Section>
        ensures { option_to_list (option_map (λ r. section_tree r.now) result)
            ≡ sections_named name.now (item_alone self.now) }
    {
        match self {
            Item::Param { .. } => None,
            Item::Section(inside) => {
                if inside.name.bytes() == name {
                    Some(inside)
                } else {
                    None
                }
            }
        }
    }
}

impl Section {
    /// The sections of this name directly inside, in order.
    ///
    /// Fails only when memory runs out.
    pub fn sections_named<'a>(
        &'a self,
        alloc: Global,
        name: &[u8],
    ) -> Result<Vec<&'a Section>, Memory>
        ensures { IfOk result (λ v. trees_of v.items
            ≡ sections_named name.now (section_tree self.now).items) }
    {
        let mut sections = Vec::new(alloc);
        for item in self.items.as_slice() {
            if let Some(inside) = item.section_named(name) {
                sections.push(inside)?;
            }
        }
        Ok(sections)
    }
}
