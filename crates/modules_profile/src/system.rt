ghost use Rattle.std.specs.Prelude.{◌≡◌, ◌<◌, length, slice_get};
ghost use Rattle.diagram_meaning.specs.Nested.{row_of, system_of};
ghost use Rattle.modules_profile.specs.Systems.{children_of, control_of_system, own_of};

use base_core::Control;
use diagram_meaning::Subsystem;

/// The row of a system, none for the root.
pub(crate) fn row(s: &Subsystem) -> Option<u32>
    ensures { result ≡ row_of (system_of s.now) }
{
    s.row
}

/// How a system is controlled.
pub(crate) fn control(s: &Subsystem) -> Control
    ensures { result ≡ control_of_system (system_of s.now) }
{
    s.control
}

/// The rows of a system, in the order of the file.
pub(crate) fn own(s: &Subsystem) -> &[u32]
    ensures { result.now ≡ own_of (system_of s.now) }
{
    s.own.wires()
}

/// The system at place `i` of those directly inside it.
pub(crate) fn child(s: &Subsystem, i: usize) -> &Subsystem
    requires { i < length (children_of (system_of s.now)) }
    ensures { slice_get (children_of (system_of s.now)) i ≡ Some (system_of result.now) }
{
    &s.children[i]
}
