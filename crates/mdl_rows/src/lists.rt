ghost use Rattle.std.specs.Prelude.{◌≡◌, ◌++◌, OnOk, option_to_list};

use base_core::Memory;

/// Adds an item to a list, if there is one.
pub(crate) fn push_if_there<T: Drop>(list: &mut Vec<T>, item: Option<T>) -> Result<(), Memory>
    ensures { OnOk result (list.new.items ≡ list.old.items ++ option_to_list item) }
{
    if let Some(item) = item {
        list.push(item)?;
    }
    Ok(())
}
