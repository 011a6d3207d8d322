// Quotients brought to whole numbers. The divisor is positive, and the parts are at most 2^100.
ghost use Rattle.std.specs.Prelude.{◌≡◌, ◌^◌, ◌*◌, ◌+◌, ◌<◌, ◌≤◌, unsigned_abs};
ghost use Rattle.base_fixed_point.specs.Rounding.{floor_div, ceiling_div};
ghost use Rattle.base_fixed_point.specs.Rounding as rule;

use crate::types::Round;

/// n / d brought to a whole number by a rule.
pub(crate) fn rounded(r: Round, n: i128, d: u128) -> i128
    requires n { unsigned_abs n ≤ 2 ^ 100 }
    requires some { 0 < d }
    requires d { d ≤ 2 ^ 100 }
    ensures value { result ≡ rule.rounded r n d }
    ensures bound { unsigned_abs result ≤ 2 * unsigned_abs n + d + 1 }
{
    match r {
        Round::Ceiling => ceiling(n, d),
        Round::Convergent => convergent(n, d),
        Round::Floor => floor(n, d),
        Round::Nearest => nearest(n, d),
        Round::Round => {
            if n >= 0 {
                nearest(n, d)
            } else {
                -nearest(-n, d)
            }
        }
        Round::Zero => { if n >= 0 { floor(n, d) } else { ceiling(n, d) } }
    }
}

// The greatest whole number that isn't above n / d.
pub(crate) fn floor(n: i128, d: u128) -> i128
    requires some { 0 < d }
    requires d { d ≤ 2 ^ 120 }
    ensures value { result ≡ floor_div n d }
    ensures bound { unsigned_abs result ≤ unsigned_abs n }
{
    n.div_euclid(d as i128)
}

// The least whole number that isn't below n / d.
fn ceiling(n: i128, d: u128) -> i128
    requires n { unsigned_abs n ≤ 2 ^ 100 }
    requires some { 0 < d }
    requires d { d ≤ 2 ^ 100 }
    ensures value { result ≡ ceiling_div n d }
    ensures bound { unsigned_abs result ≤ unsigned_abs n }
{
    -floor(-n, d)
}

// The whole number nearest to n / d, and of two equally near the upper one.
pub(crate) fn nearest(n: i128, d: u128) -> i128
    requires n { unsigned_abs n ≤ 2 ^ 100 }
    requires some { 0 < d }
    requires d { d ≤ 2 ^ 100 }
    ensures value { result ≡ rule.nearest n d }
    ensures bound { unsigned_abs result ≤ 2 * unsigned_abs n + d }
{
    floor(2 * n + d as i128, 2 * d)
}

// The whole number nearest to n / d, and of two equally near the even one.
fn convergent(n: i128, d: u128) -> i128
    requires n { unsigned_abs n ≤ 2 ^ 100 }
    requires some { 0 < d }
    requires d { d ≤ 2 ^ 100 }
    ensures value { result ≡ rule.convergent n d }
    ensures bound { unsigned_abs result ≤ unsigned_abs n + 1 }
{
    let below = floor(n, d);
    let twice_rest = 2 * n.rem_euclid(d as i128) as u128;
    nearest_even(below, twice_rest, d)
}

// From the greatest number that isn't above a quotient, and twice the rest: the nearest, and of two the even one.
fn nearest_even(below: i128, twice_rest: u128, d: u128) -> i128
    requires { unsigned_abs below ≤ 2 ^ 100 }
    ensures value { result ≡ rule.nearest_even below twice_rest d }
    ensures bound { unsigned_abs result ≤ unsigned_abs below + 1 }
{
    if twice_rest < d {
        below
    } else if d < twice_rest {
        below + 1
    } else if is_even(below) {
        below
    } else {
        below + 1
    }
}

// Whether a number is even.
pub(crate) fn is_even(number: i128) -> bool
    ensures { result ≡ rule.is_even number }
{
    number.unsigned_abs() % 2 == 0
}
