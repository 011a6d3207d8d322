ghost use Rattle.std.specs.Prelude.{◌≡◌, ◌+◌, ◌<◌, ◌≤◌, ◌^◌, length, unsigned_abs};
ghost use Rattle.base_fixed_point.specs.Conversion.{over_units};
ghost use Rattle.diagram_blocks.specs.Value as value;
ghost use Rattle.diagram_blocks.specs.Laws as law;

/// A number of `frac` fraction bits in the finer unit of 2^-common.
pub(crate) fn aligned(v: i64, frac: u8, common: u32) -> i64
    requires unit { common ≤ 31 }
    requires fits { unsigned_abs (over_units v frac common) ≤ 2 ^ 62 }
    ensures { result ≡ over_units v frac common }
{
    let factor = 1i64 << common.saturating_sub(u32::from(frac));
    v * factor
}

/// The exact sum in units of 2^-common; bit i of `minus` subtracts input i + 1.
pub(crate) fn exact_sum(minus: u32, common: u32, fracs: &[u8], inputs: &[i64]) -> i64
    requires unit { common ≤ 31 }
    requires few { length inputs.now ≤ 16 }
    requires one_each { length fracs.now ≡ length inputs.now }
    requires fits { law.sum_magnitude common fracs.now inputs.now ≤ 2 ^ 62 }
    ensures value { result ≡ value.exact_sum minus common 0 fracs.now inputs.now }
    ensures bound { unsigned_abs result ≤ law.sum_magnitude common fracs.now inputs.now }
{
    let mut sum = 0;
    for (i, v) in inputs.iter().enumerate() {
        let term = aligned(*v, fracs[i], common);
        if (minus >> i) & 1 == 1 {
            sum -= term;
        } else {
            sum += term;
        }
    }
    sum
}

/// The exact product.
pub(crate) fn exact_product(inputs: &[i64]) -> i64
    requires { law.product_magnitude inputs.now ≤ 2 ^ 62 }
    ensures value { result ≡ value.exact_product inputs.now }
    ensures bound { unsigned_abs result ≤ law.product_magnitude inputs.now }
{
    let mut product = 1;
    for v in inputs {
        product *= *v;
    }
    product
}
