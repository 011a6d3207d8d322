ghost use Rattle.std.specs.Prelude.{◌≡◌};
ghost use Rattle.diagram_blocks.specs.Kinds as kinds;
ghost use Rattle.diagram_blocks.specs.Meaning as meaning;

use crate::kind::Kind;
use crate::op::Op;
use base_core::Control;

impl Kind {
    /// Whether rows of the kind have a value.
    pub fn has_value(&self) -> bool
        ensures { result ≡ meaning.has_value self.now }
    {
        !matches!(
            self,
            Kind::SubSystem(_) | Kind::Terminator | Kind::EnablePort | Kind::TriggerPort
        )
    }

    /// Whether a row is an Inport.
    pub fn is_inport(&self) -> bool
        ensures { result ≡ kinds.is_inport self.now }
    {
        matches!(self, Kind::Inport { .. })
    }

    /// Whether a row is an Outport.
    pub fn is_outport(&self) -> bool
        ensures { result ≡ kinds.is_outport self.now }
    {
        matches!(self, Kind::Outport { .. })
    }

    /// Whether a row is an Outport whose output is reset while its subsystem is disabled.
    pub fn is_reset_outport(&self) -> bool
        ensures { result ≡ kinds.is_reset_outport self.now }
    {
        match self {
            Kind::Outport { reset, .. } => *reset,
            _ => false,
        }
    }

    /// The port of an Inport or Outport, from 1; a row of another kind has 0.
    pub fn port(&self) -> u32
        ensures { result ≡ kinds.port_of self.now }
    {
        match self {
            Kind::Inport { port } => *port,
            Kind::Outport { port, .. } => *port,
            _ => 0,
        }
    }

    /// How a subsystem is controlled; a row of another kind counts as plain.
    pub fn control(&self) -> Control
        ensures { result ≡ kinds.control_of self.now }
    {
        match self {
            Kind::SubSystem(control) => *control,
            _ => Control::Plain,
        }
    }
}

impl Op {
    /// Whether the operation passes on what its row remembers.
    pub fn is_delay(&self) -> bool
        ensures { result ≡ kinds.is_delay self.now }
    {
        matches!(self, Op::Delay(_) | Op::Line { .. })
    }

    /// How many samples a row of the operation remembers.
    pub fn delay_length(&self) -> u32
        ensures { result ≡ meaning.delay_length self.now }
    {
        match self {
            Op::Delay(_) => 1,
            Op::Line { length, .. } => *length,
            _ => 0,
        }
    }
}
