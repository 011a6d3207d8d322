use base_core::{Port, Text};
use base_fixed_point::FixType;
use modules_profile::Profile;
use std::marker::Model;

/// A system that is driven, as its caller describes it.
#[derive(Drop)]
pub struct DriveShape {
    /// The name before `_out`, its functions' numbers and `_update` in the names of its procedures.
    pub name: Text,
    /// Its output functions; their numbers begin at 1.
    pub profile: Profile,
    /// The types of its inputs, by number.
    pub inputs: Vec<FixType>,
    /// Its controls with their types: none, an enable, a trigger, or an enable and then a trigger.
    pub controls: Vec<(Port, FixType)>,
    /// The names of the fields of its outputs, by port.
    pub outputs: Vec<Text>,
    /// After how many ticks the number of the tick that its procedures are given begins at 0 again.
    pub hyper: u32,
}

impl Model for DriveShape {
    ghost use Rattle.tool_driver.specs.Shapes.{Shape};

    ghost Value = { Shape };

    ghost view = { λ s. record {
      name = s.name;
      functions = s.profile.functions;
      inputs = s.inputs.items;
      controls = s.controls.items;
      outputs = s.outputs.items;
      hyper = s.hyper;
    } };
}
