ghost use Rattle.std.specs.Prelude.{◌≡◌, ◌<◌, ◌≤◌, length};

use base_fixed_point::FixType;
use diagram_meaning::{Resolved, Row};

/// The rows of the table.
pub(crate) fn rows_of(r: &Resolved) -> &[Row]
    ensures rows { result.now ≡ r.now.tree.table.rows }
    ensures few { length result.now ≤ 20_000 }
{
    r.tree.table().rows.as_slice()
}

/// The types of the rows.
pub(crate) fn types_of(r: &Resolved) -> &[FixType]
    ensures types { result.now ≡ r.now.types }
    ensures each { length result.now ≡ length r.now.tree.table.rows }
{
    r.types.as_slice()
}
