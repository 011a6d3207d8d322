ghost use Rattle.std.specs.Prelude.{◌≡◌, IfOk};
ghost use Rattle.right_claim.specs.SystemOk.{SystemOk};
ghost use Rattle.emit_shape.specs.SystemTree.{system_tree};
ghost use Rattle.emit_system_spec.specs.Emitted.{IsEmitted};
ghost use Rattle.emit_system_spec.specs.EmittedCode.{system_code};

use base_core::Memory;
use emit_layout_tables::layout_of;
use emit_shape::SystemCode;
use emit_system::{code_of_system, emitted_agree};
use emit_system_spec::emitted_is_emittable;
use modules_profile::{Local, Profile};
use modules_schedule::Schedule;
use right_system::emitted_code_is_ok;
use std::alloc::Global;

/// The code of a system of a model without a loop, by its own rows, its profile and its schedule. It is right for the
/// system, whatever code its children have that is right for them.
///
/// In time linear in its rows, its children's headers and the calls of groups. Fails only if memory runs out.
pub fn emit_system(
    alloc: Global,
    local: &Local,
    profile: &Profile,
    schedule: &Schedule,
) -> Result<SystemCode, Memory>
    requires { IsEmitted local.now profile.now schedule.now }
    ensures is { IfOk result (λ code. system_tree code ≡ system_code local.now profile.now schedule.now) }
    ensures right { IfOk result (λ code. SystemOk local.now profile.now (system_tree code)) }
{
    emitted_is_emittable();
    emitted_agree();
    emitted_code_is_ok();
    let layout = layout_of(alloc, local, profile, schedule)?;
    code_of_system(alloc, &layout)
}
