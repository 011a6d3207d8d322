ghost use Rattle.std.specs.Prelude.{◌≡◌, ◌<◌, ◌≤◌, IfOk, length};
ghost use Rattle.modules_profile.specs.Locals as locals;
ghost use Rattle.emit_shape.specs.Heads as heads;
ghost use Rattle.emit_system_spec.specs.EmittedCode as code;

use crate::heads::{all_params, params_of_function, params_of_ports};
use crate::inports::inports_among;
use base_core::Memory;
use emit_layout::{Layout, Params};
use std::alloc::Global;

/// The parameters of function `j` of a system, from 1 on.
///
/// Fails only when memory runs out.
pub fn out_params(alloc: Global, layout: &Layout<'_>, j: u32) -> Result<Params, Memory>
    requires first { 0 < j }
    requires last { j ≤ length layout.now.profile.functions }
    ensures { IfOk result (λ p. p
        ≡ (heads.out_head (locals.own_header layout.now.local layout.now.profile) j).params) }
{
    layout.is_emittable();
    let local = layout.local();
    let profile = layout.profile();
    let function = &profile.functions[(j - 1) as usize];
    params_of_function(alloc, local.control, function, layout.port_types())
}

/// The parameters of a system's update.
///
/// Fails only when memory runs out.
pub fn update_params(alloc: Global, layout: &Layout<'_>) -> Result<Params, Memory>
    ensures { IfOk result (λ p. p
        ≡ (heads.update_head (locals.own_header layout.now.local layout.now.profile)).params) }
{
    let local = layout.local();
    all_params(alloc, local.control, layout.port_types())
}

/// The parameters of the procedure of a group.
///
/// Fails only when memory runs out.
pub fn group_params(alloc: Global, layout: &Layout<'_>, group: u32) -> Result<Params, Memory>
    requires { group < length layout.now.schedule.groups }
    ensures { IfOk result (λ p. p
        ≡ code.group_params layout.now.local layout.now.profile layout.now.schedule group) }
{
    let local = layout.local();
    let nodes = layout.group_nodes(group);
    let inports = inports_among(alloc, local, layout.node_places(), nodes)?;
    params_of_ports(alloc, local.control, &inports, layout.port_types())
}
