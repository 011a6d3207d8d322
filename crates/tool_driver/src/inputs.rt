use base_core::Port;
use base_fixed_point::FixType;

/// An input of a system or a control: its place among all inputs, from 0, with the controls last.
#[derive(Clone, Copy, Debug, PartialEq, Eq, Drop)]
pub struct Input {
    /// Its place among all inputs, from 0.
    pub place: u32,
    /// Its port: an input by its number, or a control.
    pub port: Port,
    /// The type of its numbers.
    pub of: FixType,
}
