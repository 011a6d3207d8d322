ghost use Rattle.std.specs.Prelude.{◌≡◌, IfOk};
ghost use Rattle.emit_shape.specs.SystemTree.{system_tree};
ghost use Rattle.emit_system_spec.specs.Emittable.{IsEmittable};
ghost use Rattle.emit_system_spec.specs.EmittedCode.{system_code};
ghost use Rattle.emit_system.specs.Agreeing.{AgreeOnFunctions};

use crate::procedures::procedures;
use base_core::Memory;
use emit_layout::Layout;
use emit_shape::SystemCode;
use emit_signatures::{output_fields, structure};
use std::alloc::Global;

/// The code of a system that is laid out.
///
/// Fails only when memory runs out.
pub fn code_of_system(alloc: Global, layout: &Layout<'_>) -> Result<SystemCode, Memory>
    requires emittable { IsEmittable layout.now.local layout.now.schedule }
    requires agree { AgreeOnFunctions layout.now.profile layout.now.schedule }
    ensures { let of = layout.now in IfOk result
        (λ code. system_tree code ≡ system_code of.local of.profile of.schedule) }
{
    Ok(SystemCode {
        structure: structure(alloc, layout)?,
        outputs: output_fields(alloc, layout)?,
        procedures: procedures(alloc, layout)?,
    })
}
