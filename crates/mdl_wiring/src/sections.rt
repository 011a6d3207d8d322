ghost use Rattle.std.specs.Prelude.{◌≡◌, ◌++◌, OnOk};
ghost use Rattle.mdl_tree.specs.Values.{section_tree, trees_of};
ghost use Rattle.mdl_wiring.specs.Lines.{parts_of_line};

use base_core::Memory;
use mdl_tree::{Item, Section};

/// Takes a line's own section and those of its branches after the parts taken before.
pub(crate) fn take_parts<'a>(parts: &mut Vec<&'a Section>, line: &'a Section) -> Result<(), Memory>
    ensures { OnOk result (trees_of parts.new.items ≡ trees_of parts.old.items
        ++ parts_of_line (section_tree line.now)) }
{
    parts.push(line)?;
    for item in line.items.as_slice() {
        if let Item::Section(branch) = item {
            if branch.name.bytes() == b"Branch".as_slice() {
                take_parts(parts, branch)?;
            }
        }
    }
    Ok(())
}
