ghost use Rattle.std.specs.Prelude.{◌≡◌, ℕ, ◌<◌, length};
ghost use Rattle.base_refusals.specs.FirstRefusal.{as_plain, least_line};
ghost use Rattle.diagram_meaning.specs.RowTable.{RowTable};
ghost use Rattle.diagram_meaning.specs.SampleTimes.{written_by};
ghost use Rattle.diagram_meaning.specs.TimeRefusals.{rate_faults, rate_refusal, ratio_faults};
ghost use Rattle.diagram_meaning.specs.TimeRefusals as refusal;
ghost use Rattle.diagram_times.specs.Bases.{AreCounted, IsBaseOf, IsCountedText};

use crate::base::BaseTick;
use crate::times::time_of;
use base_core::TimeText;
use base_refusals::{Refusal, earlier};
use diagram_blocks::Kind;
use diagram_meaning::{Row, Time};

/// The first rate transition between times without a whole ratio, by the times that the inputs of the rows give.
pub(crate) fn least_bad_rate(rows: &[Row], inside: &[Time], base: BaseTick) -> Option<Refusal>
    requires len { length inside.now ≡ length rows.now }
    requires counted { AreCounted rows.now base }
    ensures { (table : RowTable) → table.rows ≡ rows.now → IsBaseOf table base →
        as_plain result ≡ rate_refusal table inside.now }
{
    let mut least = None;
    let mut b = rows.len();
    'back: while b > 0 {
        b -= 1;
        least = earlier(rate_fault(&rows[b], inside[b], base), least);
    }
    least
}

/// What is wrong with a row, if it is a rate transition between times without a whole ratio.
fn rate_fault(row: &Row, inside: Time, base: BaseTick) -> Option<Refusal>
    requires { IsCountedText base (written_by row.now.kind row.now.time_text) }
    ensures { (table : RowTable) → IsBaseOf table base →
        as_plain result ≡ least_line (rate_faults table row.now.place.line inside row.now.kind) }
{
    match &row.kind {
        Kind::RateTransition { out, .. } => ratio_fault(row.place.line, inside, *out, base),
        _ => None,
    }
}

/// What is wrong with a rate transition at this line from one time to the written one.
fn ratio_fault(line: u32, inside: Time, out: TimeText, base: BaseTick) -> Option<Refusal>
    requires { IsCountedText base out }
    ensures { (table : RowTable) → IsBaseOf table base →
        as_plain result ≡ least_line (ratio_faults table line inside out) }
{
    let outside = time_of(out, base)?;
    if are_related(inside, outside) {
        return None;
    }
    Some(Refusal::RateRatio {
        line,
        inside: inside.period,
        outside: outside.period,
    })
}

/// Whether a rate transition may lead from one time to another: the same, or without offsets and with one period a multiple
/// of the other.
fn are_related(inside: Time, outside: Time) -> bool
    ensures { result ≡ refusal.are_related inside outside.period outside.offset }
{
    (inside.period == outside.period && inside.offset == outside.offset)
        || ((inside.offset == 0 && outside.offset == 0)
            && (inside.period % outside.period == 0 || outside.period % inside.period == 0))
}
