ghost use Rattle.std.specs.Prelude.{◌≡◌, ◌++◌, IfOk};
ghost use Rattle.modules_profile.specs.Systems as systems;
ghost use Rattle.emit_shape.specs.Names as names;

use base_core::{Memory, Text};
use std::alloc::Global;

/// The name of a system: `top`, or `s` and its subsystem row.
pub(crate) fn system_name(alloc: Global, system: Option<u32>) -> Result<Text, Memory>
    ensures { IfOk result (λ t. t ≡ systems.system_name system) }
{
    match system {
        None => Text::copy_of(alloc, b"top"),
        Some(e) => Text::numbered(alloc, "s", u64::from(e)),
    }
}

/// The name of the field for the value of a row.
pub(crate) fn value_name(alloc: Global, row: usize) -> Result<Text, Memory>
    ensures { IfOk result (λ t. t ≡ names.value_name row) }
{
    Text::numbered(alloc, "v", row as u64)
}
