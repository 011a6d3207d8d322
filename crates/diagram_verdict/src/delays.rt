ghost use Rattle.std.specs.Prelude.{◌≡◌, ◌≤◌, IfSome, option_map};
ghost use Rattle.std.specs.List.{AllByRecursion};
ghost use Rattle.base_refusals.specs.Refusals.{plain_refusal};
ghost use Rattle.diagram_meaning.specs.DelayRefusals.{delay_refusal, length_at};
ghost use Rattle.diagram_meaning.specs.WellFormed.{IsRow};
ghost use Rattle.diagram_verdict.specs.DelaySums.{one_length};

use base_refusals::Refusal;
use diagram_blocks::Kind;
use diagram_meaning::Row;

/// The most samples that the delays of a model remember together.
const MOST_SAMPLES: u32 = 1_000_000;

/// How many samples a row remembers that is a delay of several.
fn length_of(row: &Row) -> Option<u32>
    requires { IsRow row.now }
    ensures length { one_length row.now.place.line result
        ≡ length_at row.now.place.line row.now.kind }
    ensures bound { IfSome result (λ n. n ≤ 65_535) }
{
    match row.kind {
        Kind::Delay { length, .. } => Some(length),
        _ => None,
    }
}

/// The refusal of a model whose delays remember more samples together, at the first row with which they do.
pub(crate) fn refusal_of_delays(rows: &[Row]) -> Option<Refusal>
    requires { AllByRecursion IsRow rows.now }
    ensures { option_map plain_refusal result ≡ delay_refusal rows.now }
{
    let mut total = 0;
    for row in rows {
        if let Some(length) = length_of(row) {
            total += length;
            if total > MOST_SAMPLES {
                return Some(Refusal::LongDelays {
                    line: row.place.line,
                    total,
                });
            }
        }
    }
    None
}
