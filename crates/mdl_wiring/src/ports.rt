ghost use Rattle.std.specs.Prelude.{◌≡◌};
ghost use Rattle.mdl_blocks.specs.Words.{number_up_to};
ghost use Rattle.mdl_wiring.specs.Members as members;
ghost use Rattle.mdl_wiring.specs.Ports as ports;
ghost use Rattle.mdl_wiring.specs.Held.{place_seen};

use crate::lines::Place;
use crate::member::Shape;
use mdl_blocks::number_up_to;

/// Where an input reads from.
#[derive(Clone, Copy, Debug, PartialEq, Eq, Drop)]
pub struct Source {
    /// The place of the block among the members of its system.
    pub member: usize,
    /// Its output, from 1.
    pub output: u32,
}

/// An input: the place of its block among the members, and its number among the inputs of the block, from 1: first the
/// data inputs, then the enable, then the trigger.
#[derive(Clone, Copy, Debug, PartialEq, Eq, Hash)]
pub(crate) struct Input {
    pub member: usize,
    pub number: u64,
}

impl Shape {
    /// The number of the enable, if it has one.
    fn enable_number(self) -> Option<u64>
        ensures { result ≡ members.enable_number self }
    {
        if self.has_enable() {
            Some(u64::from(self.input_count()) + 1)
        } else {
            None
        }
    }

    /// The number of the trigger, if it has one: it is the last input.
    fn trigger_number(self) -> Option<u64>
        ensures { result ≡ members.trigger_number self }
    {
        if self.has_trigger() {
            Some(self.port_count())
        } else {
            None
        }
    }

    /// The number of the data input that a text names, if it has it.
    fn data_number(self, text: &[u8]) -> Option<u64>
        ensures { result ≡ number_up_to (members.input_count self) text.now }
    {
        match number_up_to(self.input_count(), text) {
            Some(number) => Some(u64::from(number)),
            None => None,
        }
    }

    /// The number of the input that a text at the end of a line names, if it has it.
    fn input_named(self, text: &[u8]) -> Option<u64>
        ensures { result ≡ ports.input_named self text.now }
    {
        if text == b"enable".as_slice() {
            self.enable_number()
        } else if text == b"trigger".as_slice() {
            self.trigger_number()
        } else {
            self.data_number(text)
        }
    }
}

/// The input that a place names, if its block is there and has it.
pub(crate) fn input_at(place: &Place) -> Option<Input>
    ensures { result ≡ ports.input_at (place_seen place.now) }
{
    let named = place.named?;
    let number = named.shape.input_named(place.port?)?;
    Some(Input {
        member: named.at,
        number,
    })
}

/// The output that a place names, if its block is there and has it.
pub(crate) fn output_at(place: &Place) -> Option<Source>
    ensures { result ≡ ports.output_at (place_seen place.now) }
{
    let named = place.named?;
    let output = number_up_to(named.shape.output_count(), place.port?)?;
    Some(Source {
        member: named.at,
        output,
    })
}
