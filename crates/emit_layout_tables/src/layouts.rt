ghost use Rattle.std.specs.Prelude.{◌≡◌, IfOk};
ghost use Rattle.emit_system_spec.specs.Emittable.{IsEmittable};
ghost use Rattle.emit_layout_tables.specs.Tables.{AreTables};

use crate::bases::bases_behind;
use crate::groups::code_groups;
use crate::numbers::fields_of;
use crate::places::node_places;
use crate::ports::port_types;
use crate::sources::sources_of;
use base_core::Memory;
use emit_layout::{Fields, Layout, Tables};
use modules_profile::{Local, Profile};
use modules_schedule::Schedule;
use std::alloc::Global;

/// The layout of a system with this profile and this schedule, made in time linear in the system and its schedule.
///
/// Fails only when memory runs out.
pub fn layout_of<'a>(
    alloc: Global,
    local: &'a Local,
    profile: &'a Profile,
    schedule: &'a Schedule,
) -> Result<Layout<'a>, Memory>
    requires { IsEmittable local.now schedule.now }
    ensures { IfOk result (λ l. l
        ≡ record { local = local.now; profile = profile.now; schedule = schedule.now }) }
{
    let fields = fields_of(alloc, local, schedule)?;
    let tables = tables_of(alloc, &fields)?;
    Ok(Layout::new(fields, profile, tables))
}

// The tables of the system with these fields.
fn tables_of(alloc: Global, fields: &Fields<'_>) -> Result<Tables, Memory>
    ensures { IfOk result (λ t.
        AreTables fields.now t.sources t.nodes.items t.groups.items t.bases.items t.ports.items) }
{
    fields.is_emittable();
    let local = fields.local();
    let schedule = fields.schedule();
    let groups = code_groups(alloc, schedule)?;
    let bases = bases_behind(alloc, &groups, local, schedule)?;
    let nodes = node_places(alloc, local)?;
    let ports = port_types(alloc, local)?;
    let sources = sources_of(alloc, fields)?;
    Ok(Tables {
        sources,
        nodes,
        groups,
        bases,
        ports,
    })
}
