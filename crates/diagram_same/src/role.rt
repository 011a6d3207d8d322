ghost use Rattle.std.specs.Prelude.{◌≡◌};
ghost use Rattle.diagram_same.specs.Same.{role_of as role_of_kind};

use base_core::Control;
use diagram_blocks::Kind;

/// What the code of a row has of its block beside the operation: that it is an input, an output or a subsystem, with its
/// port, its options and its controls.
#[derive(Clone, Copy, Debug, PartialEq, Eq, Drop)]
pub enum Role {
    /// An input of its system, by its port.
    Input {
        port: u32,
    },
    /// An output of its system, by its port: whether it is reset, and its initial value, a fraction in lowest terms.
    Output {
        port: u32,
        reset: bool,
        num: i128,
        den: u128,
    },
    /// A subsystem, by its controls.
    Subsystem(Control),
    /// Any other block.
    Other,
}

/// The role of a block.
pub(crate) fn role_of(kind: &Kind) -> Role
    ensures { result ≡ role_of_kind kind.now }
{
    match kind {
        Kind::Inport { port } => Role::Input { port: *port },
        Kind::Outport {
            port,
            reset,
            initial,
        } => Role::Output {
            port: *port,
            reset: *reset,
            num: initial.num,
            den: initial.den,
        },
        Kind::SubSystem(control) => Role::Subsystem(*control),
        _ => Role::Other,
    }
}
