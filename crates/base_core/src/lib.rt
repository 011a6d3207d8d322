//! What the whole compiler speaks of: places in a file, fractions, decimals, ports and parameters.
#![tactic(auto)]

mod base;
mod bytes;
mod divisors;
mod laws;
mod number_text;
mod ports;
mod text;
mod words;

pub use base::{
    Compare, Control, Decimal, Edge, Frac, Memory, NumFault, ParamName, Place, Port, TimeText,
};
pub use bytes::{is_blank, trim, trim_start};
pub use divisors::{gcd, lcm};
pub use laws::needs_are_least;
pub use number_text::push_number;
pub use ports::input_bit;
pub use text::{Text, Wires};
