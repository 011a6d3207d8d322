ghost use Rattle.std.specs.Prelude.{◌≡◌, ◌/◌, ◌<◌, ◌≤◌, ◌^◌};
ghost use Rattle.diagram_meaning.specs.SampleTimes as search;

use base_core::Frac;

/// The base tick of a model, over the common denominator of all its written fractions: `numerator / denominator`.
#[derive(Clone, Copy, Debug, PartialEq, Eq, Drop)]
pub(crate) struct BaseTick {
    pub denominator: u64,
    pub numerator: u64,
}

/// The numerator of a fraction over a denominator.
pub(crate) fn numerator_over(denominator: u64, fraction: Frac) -> u64
    requires denominator { denominator ≤ 10 ^ 9 }
    requires low { fraction.num ≤ 10 ^ 9 }
    ensures value { result ≡ search.numerator_over denominator fraction }
    ensures low { result ≤ 10 ^ 18 }
{
    fraction.num * (denominator / fraction.den)
}
