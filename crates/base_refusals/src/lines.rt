ghost use Rattle.std.specs.Prelude.{◌≡◌, Some};
ghost use Rattle.base_refusals.specs.Refusals.{plain_refusal};
ghost use Rattle.base_refusals.specs.FirstRefusal.{as_plain, earlier, earlier_of, line_of_refusal};

use crate::refusal::Refusal;

/// The line of a refusal, 0 for one that has none.
fn line_of(refusal: &Refusal) -> u32
    ensures { result ≡ line_of_refusal (plain_refusal refusal.now) }
{
    match refusal {
        Refusal::TooLong | Refusal::Loop { .. } => 0,
        Refusal::Syntax { line, .. }
        | Refusal::NoModel { line }
        | Refusal::TwoModels { line, .. }
        | Refusal::TooDeep { line }
        | Refusal::TooMany { line, .. }
        | Refusal::Unsupported { line }
        | Refusal::Parameter { line, .. }
        | Refusal::DoubleName { line }
        | Refusal::NoBlock { line }
        | Refusal::NoPort { line }
        | Refusal::TwoSources { line }
        | Refusal::Unconnected { line, .. }
        | Refusal::TwoControls { line }
        | Refusal::Continuous { line }
        | Refusal::FloatType { line }
        | Refusal::NoType { line, .. }
        | Refusal::TriggerSigned { line }
        | Refusal::TooWide { line, .. }
        | Refusal::TimeInside { line }
        | Refusal::LongCycle { line, .. }
        | Refusal::RateRatio { line, .. }
        | Refusal::LongDelays { line, .. } => *line,
    }
}

/// Of two refusals that may be there, that with the lesser line, and of those at one line the first.
pub fn earlier(found: Option<Refusal>, other: Option<Refusal>) -> Option<Refusal>
    ensures { as_plain result ≡ earlier_of (as_plain found) (as_plain other) }
{
    match (found, other) {
        (None, other) => other,
        (found, None) => found,
        (Some(found), Some(other)) => Some(earlier_one(found, other)),
    }
}

/// That of two refusals with the lesser line, and of those at one line the first.
fn earlier_one(found: Refusal, other: Refusal) -> Refusal
    ensures { plain_refusal result ≡ earlier (plain_refusal found) (Some (plain_refusal other)) }
{
    if line_of(&other) < line_of(&found) {
        other
    } else {
        found
    }
}
