ghost use Rattle.std.specs.Prelude.{◌≡◌, ◌++◌, IfOk, OnOk, decimal, option_to_list};

use base_core::Memory;
use std::alloc::Global;

/// Adds bytes.
pub(crate) fn push_bytes(out: &mut Vec<u8>, bytes: &[u8]) -> Result<(), Memory>
    ensures { OnOk result (out.new.items ≡ out.old.items ++ bytes.now) }
{
    out.extend_from_slice(bytes)?;
    Ok(())
}

/// A text with a number in it.
pub(crate) fn numbered(
    alloc: Global,
    before: &str,
    number: usize,
    behind: &str,
) -> Result<Vec<u8>, Memory>
    ensures { IfOk result (λ v. v.items ≡ before.now ++ decimal number ++ behind.now) }
{
    let text = format!(in alloc; "{before}{number}{behind}")?;
    Ok(Vec::from_slice(alloc, text.as_bytes())?)
}

/// Adds a row to a list, if there is one.
pub(crate) fn push_if_there(rows: &mut Vec<usize>, row: Option<usize>) -> Result<(), Memory>
    ensures { OnOk result (rows.new.items ≡ rows.old.items ++ option_to_list row) }
{
    if let Some(row) = row {
        rows.push(row)?;
    }
    Ok(())
}
