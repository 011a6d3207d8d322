ghost use Rattle.std.specs.Prelude.{◌≡◌, ◌↔◌, ◌<◌, ℕ, suc, IsBitSet};
ghost use Rattle.base_core.specs.Ports as ports;

use crate::base::{Control, Port};

impl Port {
    /// The place of an input in a set: bit k - 1 for input k, bit 32 for an enable and bit 33 for a trigger.
    pub fn bit(self) -> u32
        ensures { result ≡ ports.bit_of self }
    {
        match self {
            Port::Number(k) => k.saturating_sub(1),
            Port::Enable => 32,
            Port::Trigger => 33,
        }
    }
}

impl Control {
    /// The controls as a set of inputs: bit 32 for an enable and bit 33 for a trigger.
    pub fn mask(self) -> u64
        ensures { result ≡ ports.control_mask self }
    {
        match self {
            Control::Plain => 0,
            Control::Enabled { .. } => 1 << 32,
            Control::Triggered(_) => 1 << 33,
            Control::Both { .. } => 0b11 << 32,
        }
    }
}

/// The set of the input with this number alone: bit `number` - 1, where it is one of the first 32.
pub fn input_bit(number: u32) -> u64
    ensures { (k : ℕ) → IsBitSet result k ↔ ((k < 32) × (number ≡ suc k)) }
{
    if 0 < number && number <= 32 {
        1 << (number - 1)
    } else {
        0
    }
}
