ghost use Rattle.std.specs.Prelude.{◌≡◌, ◌&&◌, not, option_map};
ghost use Rattle.std.specs.Option.{option_copied};
ghost use Rattle.base_numerals.specs.Literals.{ratio_of, parts_of};
ghost use Rattle.mdl_tree.specs.Values.{section_tree, item_alone};
ghost use Rattle.mdl_params.specs.Forms.{number_form};
ghost use Rattle.mdl_table.specs.Walks.{is_system_first};
ghost use Rattle.mdl_table.specs.Steps.{first_at_any_depth, first_outside_system, positive_parts, IsStepOf, IsFixedStep};

use base_core::{Decimal, Frac, Text};
use base_numerals::frac_of;
use mdl_params::number;
use mdl_tree::{Item, Section};

/// The name of the parameter that a model's step has.
const STEP_NAME: &[u8] = b"FixedStep";

/// The name of the section with a model's blocks.
const SYSTEM_NAME: &[u8] = b"System";

/// The step that the first model of a file writes: the first FixedStep outside its first System, where that is a
/// fraction above 0 with parts up to 10^9. None where there is none of these.
pub fn fixed_step(file: &Section) -> Option<Frac>
    ensures { IsFixedStep (section_tree file.now).items result }
{
    step_of_model(file.section(b"Model")?)
}

/// The step that a model writes, if it is a positive fraction.
pub(crate) fn step_of_model(model: &Section) -> Option<Frac>
    ensures { IsStepOf (section_tree model.now).items result }
{
    let text = value_outside_system(model, STEP_NAME)?;
    let value = number(text.bytes()).ok()?;
    positive_fraction(&value)
}

/// The fraction of a number, if it is above 0 and within the limits.
fn positive_fraction(value: &Decimal) -> Option<Frac>
    ensures { option_map parts_of result ≡ positive_parts (ratio_of value.now) }
{
    let fraction = frac_of(value).ok()?;
    if fraction.num == 0 {
        None
    } else {
        Some(fraction)
    }
}

/// The first value of a parameter in a section, at any depth.
#[cycle(inside)]
fn value_inside<'a>(section: &'a Section, name: &[u8]) -> Option<&'a Text>
    ensures { option_copied result ≡ first_at_any_depth name.now (section_tree section.now).items }
{
    for item in section.items.as_slice() {
        if let Some(value) = value_in_item(item, name) {
            return Some(value);
        }
    }
    None
}

/// The value of an item, if it is a parameter of this name, or the first one inside it.
#[cycle(inside)]
fn value_in_item<'a>(item: &'a Item, name: &[u8]) -> Option<&'a Text>
    ensures { option_copied result ≡ first_at_any_depth name.now (item_alone item.now) }
{
    match item {
        Item::Param {
            name: own,
            value,
            ..
        } => {
            if own.bytes() == name {
                Some(value)
            } else {
                None
            }
        }
        Item::Section(inside) => value_inside(inside, name),
    }
}

/// The same outside the first System directly inside.
fn value_outside_system<'a>(model: &'a Section, name: &[u8]) -> Option<&'a Text>
    ensures { option_copied result ≡ first_outside_system name.now (section_tree model.now).items }
{
    let mut is_behind = false;
    for item in model.items.as_slice() {
        if passes_system(is_behind, item) {
            is_behind = true;
        } else if let Some(value) = value_in_item(item, name) {
            return Some(value);
        }
    }
    None
}

/// Whether an item is the first System, where none is before it.
fn passes_system(is_behind: bool, item: &Item) -> bool
    ensures { result ≡ (not is_behind && is_system_first (item_alone item.now)) }
{
    !is_behind && is_system(item)
}

/// Whether an item is a System.
fn is_system(item: &Item) -> bool
    ensures { result ≡ is_system_first (item_alone item.now) }
{
    match item {
        Item::Param { .. } => false,
        Item::Section(inside) => inside.name.bytes() == SYSTEM_NAME,
    }
}
