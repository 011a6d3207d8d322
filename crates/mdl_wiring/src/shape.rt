ghost use Rattle.std.specs.Prelude.{◌≡◌, true};
ghost use Rattle.mdl_blocks.specs.Held.{kind_text};
ghost use Rattle.mdl_wiring.specs.declared.member.Shape.TheVariants as shape;
ghost use Rattle.mdl_wiring.specs.Shapes.{shape_of};

use crate::member::Shape;
use mdl_blocks::BlockKind;

/// The port blocks inside a subsystem.
#[derive(Clone, Copy, Debug, PartialEq, Eq, Drop)]
pub struct Inside {
    /// How many Inports.
    pub inports: u32,
    /// How many Outports.
    pub outports: u32,
    /// Whether there is an EnablePort.
    pub enable: bool,
    /// Whether there is a TriggerPort.
    pub trigger: bool,
}

/// A block with so many inputs and an output.
fn computed(inputs: u8) -> Shape
    ensures { result ≡ shape.Plain inputs true }
{
    Shape::Plain {
        inputs,
        output: true,
    }
}

impl Shape {
    /// The ports of a block, which has these port blocks inside where it is a subsystem.
    pub fn of(kind: &BlockKind, inside: Inside) -> Shape
        ensures { result ≡ shape_of inside (kind_text kind.now) }
    {
        match kind {
            BlockKind::Inport { port } => Shape::Inport { port: *port },
            BlockKind::Outport { port, .. } => Shape::Outport { port: *port },
            BlockKind::SubSystem { .. } => Shape::SubSystem {
                inputs: inside.inports,
                outputs: inside.outports,
                enable: inside.enable,
                trigger: inside.trigger,
            },
            BlockKind::EnablePort { .. } => Shape::EnablePort,
            BlockKind::TriggerPort(_) => Shape::TriggerPort,
            BlockKind::Terminator => Shape::Plain {
                inputs: 1,
                output: false,
            },
            BlockKind::Constant(_) | BlockKind::Ground => computed(0),
            BlockKind::Gain { .. }
            | BlockKind::UnitDelay { .. }
            | BlockKind::Delay { .. }
            | BlockKind::ZeroOrderHold
            | BlockKind::Convert(_)
            | BlockKind::RateTransition { .. } => computed(1),
            BlockKind::Relational(_) => computed(2),
            BlockKind::Switch { .. } => computed(3),
            BlockKind::Sum { signs, .. } => computed(signs.count),
            BlockKind::Product { count, .. } => computed(*count),
            BlockKind::Logic { count, .. } => computed(*count),
        }
    }
}
