ghost use Rattle.std.specs.Prelude.{◌≡◌};
ghost use Rattle.base_fixed_point.specs.Conversion.{least_of, greatest_of};

use crate::types::FixType;

/// The least stored integer of a type.
pub fn least(t: FixType) -> i64
    ensures { result ≡ least_of t }
{
    if t.signed { -(1 << (t.bits - 1)) } else { 0 }
}

/// The greatest stored integer of a type.
pub fn greatest(t: FixType) -> i64
    ensures { result ≡ greatest_of t }
{
    if t.signed {
        (1 << (t.bits - 1)) - 1
    } else {
        (1 << t.bits) - 1
    }
}
