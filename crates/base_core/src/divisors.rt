ghost use Rattle.std.specs.Prelude.{◌≡◌, ◌^◌, ◌<◌};
ghost use Rattle.std.specs.Int.{IsGcd};
ghost use Rattle.base_core.specs.Numbers.{IsLcm};
ghost use Rattle.base_core.specs.Numbers as number;

/// The greatest common divisor; of a number and 0 it is that number.
pub fn gcd(a: u64, b: u64) -> u64
    ensures greatest { IsGcd a b result }
    ensures value { result ≡ number.gcd a b }
{
    let (mut x, mut y) = (a, b);
    while y != 0 {
        (x, y) = (y, x % y);
    }
    x
}

/// The least common multiple of two positive numbers below 2^32.
pub fn lcm(a: u64, b: u64) -> u64
    requires some_a { 0 < a }
    requires some_b { 0 < b }
    requires low_a { a < 2 ^ 32 }
    requires low_b { b < 2 ^ 32 }
    ensures least { IsLcm a b result }
    ensures value { result ≡ number.lcm a b }
{
    a * b / gcd(a, b)
}
