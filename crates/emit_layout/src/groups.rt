ghost use Rattle.std.specs.Prelude.{◌≡◌, ◌<◌, length};
ghost use Rattle.emit_system_spec.specs.Groups.{group_nodes as nodes_of_group};

use modules_schedule::Schedule;

/// The nodes of a group.
pub(crate) fn group_nodes(schedule: &Schedule, group: u32) -> &[u32]
    requires { group < length schedule.now.groups }
    ensures { result.now ≡ nodes_of_group schedule.now group }
{
    schedule.groups[group as usize].numbers()
}
