ghost use Rattle.std.specs.Prelude.{◌≡◌, Some};
ghost use Rattle.base_refusals.specs.Refusals.{plain_refusal};
ghost use Rattle.base_refusals.specs.FirstRefusal.{as_plain};
ghost use Rattle.base_refusals.specs.Order as order;

use crate::lines::earlier;
use crate::refusal::Refusal;

/// The number of a refusal.
fn number_of(refusal: &Refusal) -> u32
    ensures { result ≡ order.number_of (plain_refusal refusal.now) }
{
    match refusal {
        Refusal::TooLong => 1,
        Refusal::Syntax { .. } => 2,
        Refusal::NoModel { .. } => 3,
        Refusal::TwoModels { .. } => 4,
        Refusal::TooDeep { .. } => 5,
        Refusal::TooMany { .. } => 6,
        Refusal::Unsupported { .. } => 7,
        Refusal::Parameter { .. } => 8,
        Refusal::DoubleName { .. } => 9,
        Refusal::NoBlock { .. } => 10,
        Refusal::NoPort { .. } => 11,
        Refusal::TwoSources { .. } => 12,
        Refusal::Unconnected { .. } => 13,
        Refusal::TwoControls { .. } => 14,
        Refusal::Continuous { .. } => 15,
        Refusal::FloatType { .. } => 16,
        Refusal::NoType { .. } => 17,
        Refusal::TriggerSigned { .. } => 18,
        Refusal::TooWide { .. } => 19,
        Refusal::TimeInside { .. } => 20,
        Refusal::LongCycle { .. } => 21,
        Refusal::RateRatio { .. } => 22,
        Refusal::Loop { .. } => 23,
        Refusal::LongDelays { .. } => 24,
    }
}

/// The first of two refusals: that of the lesser number, of one number that of the lesser line, and of one line `found`.
fn first_one(found: Refusal, other: Refusal) -> Option<Refusal>
    ensures { as_plain result
        ≡ order.first_of (Some (plain_refusal found)) (Some (plain_refusal other)) }
{
    let number = number_of(&found);
    let other_number = number_of(&other);
    if other_number < number {
        Some(other)
    } else if number < other_number {
        Some(found)
    } else {
        earlier(Some(found), Some(other))
    }
}

/// Of two refusals of a file that may be there, the one that is reported: that of the lesser number, of one number that of the
/// lesser line, and of one line `found`.
pub fn first_refusal(found: Option<Refusal>, other: Option<Refusal>) -> Option<Refusal>
    ensures { as_plain result ≡ order.first_of (as_plain found) (as_plain other) }
{
    match (found, other) {
        (None, other) => other,
        (found, None) => found,
        (Some(found), Some(other)) => first_one(found, other),
    }
}
