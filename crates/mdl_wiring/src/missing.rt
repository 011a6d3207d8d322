ghost use Rattle.std.specs.Prelude.{◌≡◌};
ghost use Rattle.base_refusals.specs.FirstRefusal.{as_plain, least_in};
ghost use Rattle.mdl_wiring.specs.Lines as lines;
ghost use Rattle.mdl_wiring.specs.Refusals as refusals;
ghost use Rattle.mdl_wiring.specs.Held.{place_seen, places_seen, ends_seen};

use crate::lines::{LineEnd, Place};
use crate::ports::{input_at, output_at};
use base_refusals::{Refusal, earlier};

/// The refusal of a place whose block isn't there.
fn no_block(place: &Place) -> Option<Refusal>
    ensures { as_plain result ≡ refusals.no_block (place_seen place.now) }
{
    match place.named {
        Some(_) => None,
        None => Some(Refusal::NoBlock { line: place.line }),
    }
}

/// The first source whose block isn't there.
fn least_source_without_block(sources: &[Place]) -> Option<Refusal>
    ensures { as_plain result ≡ least_in refusals.no_block (places_seen sources.now) }
{
    let mut least = None;
    for source in sources {
        least = earlier(least, no_block(source));
    }
    least
}

/// The first target whose block isn't there.
fn least_target_without_block(ends: &[LineEnd]) -> Option<Refusal>
    ensures { as_plain result ≡ least_in (λ (e : lines.LineEnd). refusals.no_block e.target)
        (ends_seen ends.now) }
{
    let mut least = None;
    for end in ends {
        least = earlier(least, no_block(&end.target));
    }
    least
}

/// The first place whose block isn't there.
pub(crate) fn least_without_block(sources: &[Place], ends: &[LineEnd]) -> Option<Refusal>
    ensures { as_plain result
        ≡ refusals.missing_blocks (places_seen sources.now) (ends_seen ends.now) }
{
    earlier(
        least_source_without_block(sources),
        least_target_without_block(ends),
    )
}

/// The refusal of a source whose block hasn't the port, or that has no port.
fn no_output(place: &Place) -> Option<Refusal>
    ensures { as_plain result ≡ refusals.no_output (place_seen place.now) }
{
    match output_at(place) {
        Some(_) => None,
        None => Some(Refusal::NoPort { line: place.line }),
    }
}

/// The same of a target.
fn no_input(place: &Place) -> Option<Refusal>
    ensures { as_plain result ≡ refusals.no_input (place_seen place.now) }
{
    match input_at(place) {
        Some(_) => None,
        None => Some(Refusal::NoPort { line: place.line }),
    }
}

/// The first source whose block hasn't the port.
fn least_source_without_port(sources: &[Place]) -> Option<Refusal>
    ensures { as_plain result ≡ least_in refusals.no_output (places_seen sources.now) }
{
    let mut least = None;
    for source in sources {
        least = earlier(least, no_output(source));
    }
    least
}

/// The first target whose block hasn't the port.
fn least_target_without_port(ends: &[LineEnd]) -> Option<Refusal>
    ensures { as_plain result ≡ least_in (λ (e : lines.LineEnd). refusals.no_input e.target)
        (ends_seen ends.now) }
{
    let mut least = None;
    for end in ends {
        least = earlier(least, no_input(&end.target));
    }
    least
}

/// The first place whose block hasn't the port.
pub(crate) fn least_without_port(sources: &[Place], ends: &[LineEnd]) -> Option<Refusal>
    ensures { as_plain result
        ≡ refusals.missing_ports (places_seen sources.now) (ends_seen ends.now) }
{
    earlier(
        least_source_without_port(sources),
        least_target_without_port(ends),
    )
}
