ghost use Rattle.base_numerals.specs.Literals.{FracOf};

use base_core::{Decimal, Frac, NumFault};

/// The fraction of a decimal that is not negative and has parts up to a thousand million.
pub fn frac_of(d: &Decimal) -> Result<Frac, NumFault>
    ensures { FracOf result d.now }
{
    if d.num < 0 || d.num > 1_000_000_000 || d.den > 1_000_000_000 {
        return Err(NumFault::Range);
    }
    Ok(Frac {
        num: d.num as u64,
        den: d.den as u64,
    })
}
