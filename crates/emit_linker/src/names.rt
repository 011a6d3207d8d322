// Names that begin with that of a system.
ghost use Rattle.std.specs.Prelude.{◌≡◌, ◌++◌, IfOk, codes, decimal};

use base_core::{Memory, Text};
use emit_row_facts::joined;
use std::alloc::Global;

/// A name with an end.
pub(crate) fn with_end(alloc: Global, front: &[u8], end: &str) -> Result<Text, Memory>
    ensures { IfOk result (λ t. t ≡ front.now ++ end.now) }
{
    joined(alloc, front, end.as_bytes())
}

/// The name of function `j` of the system of a name.
pub(crate) fn out_name(alloc: Global, system: &[u8], j: u64) -> Result<Text, Memory>
    ensures { IfOk result (λ t. t ≡ system.now ++ codes "_out" ++ decimal j) }
{
    let end = Text::numbered(alloc, "_out", j)?;
    joined(alloc, system, end.bytes())
}
