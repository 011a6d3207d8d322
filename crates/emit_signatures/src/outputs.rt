ghost use Rattle.std.specs.Prelude.{◌≡◌, IfOk, map};
ghost use Rattle.modules_profile.specs.Locals as locals;
ghost use Rattle.emit_system_spec.specs.Fields as fields;

use base_core::Memory;
use emit_layout::Layout;
use emit_row_facts::outports;
use std::alloc::Global;

/// The fields of the outputs' values of a system, by port.
///
/// Fails only when memory runs out.
pub fn output_fields(alloc: Global, layout: &Layout<'_>) -> Result<Vec<u32>, Memory>
    ensures { IfOk result (λ v. v.items
        ≡ map (λ o. fields.value_field layout.now.local o.row) (locals.outports layout.now.local)) }
{
    let outports = outports(alloc, layout.local())?;
    let mut found = Vec::new(alloc);
    for outport in &outports {
        found.push(layout.value_field(outport.row))?;
    }
    Ok(found)
}
