ghost use Rattle.std.specs.Prelude.{◌≡◌, ℕ, IfOk};
ghost use Rattle.std.specs.Option.{option_copied};
ghost use Rattle.mdl_tree.specs.Values.{section_tree};
ghost use Rattle.mdl_params.specs.BlockTypes.{beside};
ghost use Rattle.mdl_params.specs.Defaults.{values_of};
ghost use Rattle.mdl_params.specs.Texts.{plain_texts};

use base_core::{Memory, Text};
use mdl_tree::{Item, Section};
use std::alloc::Global;

/// A parameter's name and value.
#[derive(Drop)]
pub(crate) struct ParamText {
    name: Text,
    value: Text,
}

/// The parameters directly inside a section, in order.
pub(crate) fn texts_of(alloc: Global, section: &Section) -> Result<Vec<ParamText>, Memory>
    ensures { IfOk result (λ texts. plain_texts texts.items
        ≡ values_of (section_tree section.now).items) }
{
    let mut texts = Vec::new(alloc);
    for item in section.items.as_slice() {
        if let Item::Param { name, value, .. } = item {
            let name = Text::copy_of(alloc, name.bytes())?;
            let value = Text::copy_of(alloc, value.bytes())?;
            texts.push(ParamText { name, value })?;
        }
    }
    Ok(texts)
}

/// The value of the first parameter of this name.
pub(crate) fn value_of<'a>(texts: &'a [ParamText], name: &[u8]) -> Option<&'a Text>
    ensures { option_copied result ≡ beside name.now (plain_texts texts.now) }
{
    for text in texts {
        if name == text.name.bytes() {
            return Some(&text.value);
        }
    }
    None
}
