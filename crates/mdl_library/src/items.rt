ghost use Rattle.std.specs.Prelude.{◌≡◌, IfOk, OnOk, unwrap_or, option_copied};
ghost use Rattle.mdl_tree.specs.Spelling as spelling;
ghost use Rattle.mdl_tree.specs.Spelling.{Items, append_items};
ghost use Rattle.mdl_tree.specs.Values.{items_of, item_alone, section_tree};
ghost use Rattle.mdl_library.specs.Items as plain;
ghost use Rattle.mdl_library.specs.HeldItems.{items_left, with_left};

use base_core::{Memory, Text};
use mdl_tree::{Item, Section};
use std::alloc::Global;

/// A section of this name with these items.
pub(crate) fn section_of(
    alloc: Global,
    name: &[u8],
    line: u32,
    items: Vec<Item>,
) -> Result<Item, Memory>
    ensures { IfOk result (λ item. item_alone item
        ≡ spelling.Section name.now line (items_of items.items) spelling.End) }
{
    Ok(Item::Section(Section {
        name: Text::copy_of(alloc, name)?,
        line,
        items,
    }))
}

/// A parameter with a name and a text.
fn param_of(alloc: Global, name: &[u8], value: &[u8], line: u32) -> Result<Item, Memory>
    ensures { IfOk result (λ item. item_alone item ≡ spelling.Param name.now value.now line spelling.End) }
{
    Ok(Item::Param {
        name: Text::copy_of(alloc, name)?,
        value: Text::copy_of(alloc, value)?,
        line,
    })
}

/// The same item in a copy on this line, or in the model itself.
#[cycle(moved)]
pub(crate) fn moved_item(alloc: Global, copy: Option<u32>, item: &Item) -> Result<Item, Memory>
    ensures { IfOk result (λ new. item_alone new ≡ plain.moved copy (item_alone item.now)) }
{
    match item {
        Item::Param { name, value, line } => {
            param_of(alloc, name.bytes(), value.bytes(), copy.unwrap_or(*line))
        }
        Item::Section(section) => {
            let items = moved_items(alloc, copy, section)?;
            section_of(
                alloc,
                section.name.bytes(),
                copy.unwrap_or(section.line),
                items,
            )
        }
    }
}

/// The same items of a section in a copy on this line, or in the model itself.
#[cycle(moved)]
pub(crate) fn moved_items(
    alloc: Global,
    copy: Option<u32>,
    section: &Section,
) -> Result<Vec<Item>, Memory>
    ensures { IfOk result (λ items. items_of items.items
        ≡ plain.moved copy (section_tree section.now).items) }
{
    let mut items = Vec::with_capacity(alloc, section.items.len())?;
    for item in section.items.as_slice() {
        items.push(moved_item(alloc, copy, item)?)?;
    }
    Ok(items)
}

/// The same item, but with what is left for the first section of this name, if it is that one.
fn item_with(
    alloc: Global,
    name: &[u8],
    left: &mut Option<Vec<Item>>,
    item: &Item,
) -> Result<Item, Memory>
    ensures { IfOk result (λ new. (rest : Items) →
        append_items (item_alone new) (with_left name.now (items_left left.new) rest)
        ≡ with_left name.now (items_left left.old) (append_items (item_alone item.now) rest)) }
{
    let Some(section) = item.section_named(name) else {
        return moved_item(alloc, None, item);
    };
    match left.take() {
        Some(inside) => section_of(alloc, section.name.bytes(), section.line, inside),
        None => moved_item(alloc, None, item),
    }
}

/// The same items of a section, with these in the first section of this name.
pub(crate) fn with_inside(
    alloc: Global,
    name: &[u8],
    inside: Vec<Item>,
    section: &Section,
) -> Result<Vec<Item>, Memory>
    ensures { IfOk result (λ items. items_of items.items
        ≡ plain.with_inside name.now (items_of inside.items) (section_tree section.now).items) }
{
    let mut left = Some(inside);
    let mut items = Vec::with_capacity(alloc, section.items.len())?;
    for item in section.items.as_slice() {
        items.push(item_with(alloc, name, &mut left, item)?)?;
    }
    Ok(items)
}

/// Adds a parameter with a name and a text on a line, if there is a text.
pub(crate) fn push_titled(
    alloc: Global,
    items: &mut Vec<Item>,
    line: u32,
    name: &[u8],
    text: Option<&[u8]>,
) -> Result<(), Memory>
    ensures { OnOk result (items_of items.new.items ≡ append_items (items_of items.old.items)
        (plain.set_on line (plain.titled name.now (option_copied text.entry)) spelling.End)) }
{
    match text {
        Some(text) => {
            items.push(param_of(alloc, name, text, line)?)?;
            Ok(())
        }
        None => Ok(()),
    }
}
