ghost use Rattle.std.specs.Prelude.{◌≡◌};
ghost use Rattle.mdl_wiring.specs.Members as members;

use base_core::Port;

/// The ports of a block.
#[derive(Clone, Copy, Debug, PartialEq, Eq, Drop)]
pub enum Shape {
    /// An Inport of its system.
    Inport {
        /// Its port, from 1.
        port: u32,
    },
    /// An Outport of its system.
    Outport {
        /// Its port, from 1.
        port: u32,
    },
    /// A subsystem.
    SubSystem {
        /// How many Inports are inside.
        inputs: u32,
        /// How many Outports are inside.
        outputs: u32,
        /// Whether an EnablePort is inside.
        enable: bool,
        /// Whether a TriggerPort is inside.
        trigger: bool,
    },
    /// The port of a subsystem's enable.
    EnablePort,
    /// The port of a subsystem's trigger.
    TriggerPort,
    /// Any other block.
    Plain {
        /// How many inputs it has.
        inputs: u8,
        /// Whether it has an output.
        output: bool,
    },
}

/// What lines see of a block.
#[derive(Clone, Copy, Debug, PartialEq, Eq, Drop)]
pub struct Member<'a> {
    /// Its name, by which lines name it.
    pub name: &'a [u8],
    /// The line that opens its section, from 1.
    pub line: u32,
    /// Its ports.
    pub shape: Shape,
}

/// One more where something is there.
fn one_if(is_there: bool) -> u64
    ensures { result ≡ members.one_if is_there }
{
    if is_there { 1 } else { 0 }
}

impl Shape {
    /// How many data inputs it has: all but the controls of a subsystem.
    pub(crate) fn input_count(self) -> u32
        ensures { result ≡ members.input_count self }
    {
        match self {
            Shape::Inport { .. } | Shape::EnablePort | Shape::TriggerPort => 0,
            Shape::Outport { .. } => 1,
            Shape::SubSystem { inputs, .. } => inputs,
            Shape::Plain { inputs, .. } => u32::from(inputs),
        }
    }

    /// How many outputs it has.
    pub(crate) fn output_count(self) -> u32
        ensures { result ≡ members.output_count self }
    {
        match self {
            Shape::Outport { .. } | Shape::EnablePort | Shape::TriggerPort => 0,
            Shape::Inport { .. } => 1,
            Shape::SubSystem { outputs, .. } => outputs,
            Shape::Plain { output, .. } => one_if(output) as u32,
        }
    }

    /// Whether a line may lead to its enable.
    pub(crate) fn has_enable(self) -> bool
        ensures { result ≡ members.has_enable self }
    {
        match self {
            Shape::SubSystem { enable, .. } => enable,
            _ => false,
        }
    }

    /// Whether a line may lead to its trigger.
    pub(crate) fn has_trigger(self) -> bool
        ensures { result ≡ members.has_trigger self }
    {
        match self {
            Shape::SubSystem { trigger, .. } => trigger,
            _ => false,
        }
    }

    /// How many inputs it has, controls among them.
    pub(crate) fn port_count(self) -> u64
        ensures { result ≡ members.port_count self }
    {
        u64::from(self.input_count()) + one_if(self.has_enable()) + one_if(self.has_trigger())
    }

    /// The port of one of its inputs, by the number of the input.
    pub(crate) fn port_numbered(self, number: u64) -> Port
        ensures { result ≡ members.port_numbered self number }
    {
        let inputs = self.input_count();
        if number <= u64::from(inputs) {
            Port::Number(number as u32)
        } else if self.has_enable() && number == u64::from(inputs) + 1 {
            Port::Enable
        } else {
            Port::Trigger
        }
    }
}
