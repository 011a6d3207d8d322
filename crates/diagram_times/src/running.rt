ghost use Rattle.std.specs.Prelude.{◌≡◌, ℕ, ◌<◌, ◌↔◌, IsTrue, length};
ghost use Rattle.diagram_meaning.specs.declared.times.Time.{Time};
ghost use Rattle.diagram_meaning.specs.RowTable.{RowTable};
ghost use Rattle.diagram_meaning.specs.Rows.{by_row};
ghost use Rattle.diagram_meaning.specs.SampleTimes.{Delays, HasTime, HasTimeBy, IsInputTime, IsSlowToFast, Writes, outermost_trigger, written_by};
ghost use Rattle.diagram_times.specs.Bases.{AreCounted, IsBaseOf, IsCountedText};
ghost use Rattle.diagram_times.specs.Running as running;

use crate::base::BaseTick;
use crate::texts::written_time;
use crate::times::{every_tick, slower, time_of};
use crate::triggers::trigger_at;
use base_core::TimeText;
use diagram_blocks::Kind;
use diagram_meaning::{Row, Time};

/// The sample time of a row, by the time that its inputs give.
pub(crate) fn time_of_row(
    rows: &[Row],
    triggers: &[Option<u32>],
    inside: Time,
    base: BaseTick,
    b: usize,
) -> Time
    requires triggers { triggers.now ≡ by_row rows.now (outermost_trigger rows.now) }
    requires counted { AreCounted rows.now base }
    requires row { b < length rows.now }
    ensures { (table : RowTable) → table.rows ≡ rows.now → IsBaseOf table base →
        IsInputTime table b inside → HasTime table b result }
{
    if trigger_at(rows, triggers, b).is_some() {
        return every_tick();
    }
    time_by_text(&rows[b].kind, written_time(&rows[b]), inside, base)
}

/// The sample time of a row of this kind that writes this time, outside subsystems with triggers.
fn time_by_text(kind: &Kind, text: TimeText, inside: Time, base: BaseTick) -> Time
    requires { IsCountedText base text }
    ensures { (table : RowTable) (b : ℕ) → IsBaseOf table base → IsInputTime table b inside →
        HasTimeBy table b kind.now text result }
{
    if text == TimeText::Inherit {
        return inside;
    }
    match time_of(text, base) {
        Some(outside) => time_by_kind(kind, inside, outside),
        None => every_tick(),
    }
}

/// The time of a row of this kind that writes a time.
fn time_by_kind(kind: &Kind, inside: Time, outside: Time) -> Time
    ensures { result ≡ running.time_by_kind kind.now inside outside }
{
    match kind {
        Kind::RateTransition { .. } => slower(inside, outside),
        _ => outside,
    }
}

/// Whether a row is a delay between rates, by the time that its inputs give.
pub(crate) fn delays(
    rows: &[Row],
    triggers: &[Option<u32>],
    inside: Time,
    base: BaseTick,
    b: usize,
) -> bool
    requires triggers { triggers.now ≡ by_row rows.now (outermost_trigger rows.now) }
    requires counted { AreCounted rows.now base }
    requires row { b < length rows.now }
    ensures { (table : RowTable) → table.rows ≡ rows.now → IsBaseOf table base →
        IsInputTime table b inside → IsTrue result ↔ Delays table b }
{
    trigger_at(rows, triggers, b).is_none() && is_slow_to_fast(&rows[b], inside, base)
}

/// Whether a row is a rate transition from a slower to a faster rate.
fn is_slow_to_fast(row: &Row, inside: Time, base: BaseTick) -> bool
    requires { IsCountedText base (written_by row.now.kind row.now.time_text) }
    ensures { (table : RowTable) (b : ℕ) → IsBaseOf table base → IsInputTime table b inside →
        IsTrue result ↔ IsSlowToFast table b row.now.kind }
{
    match &row.kind {
        Kind::RateTransition { out, .. } => is_faster(*out, inside, base),
        _ => false,
    }
}

/// Whether a text writes a time with a lesser period.
fn is_faster(text: TimeText, inside: Time, base: BaseTick) -> bool
    requires { IsCountedText base text }
    ensures { (table : RowTable) → IsBaseOf table base →
        IsTrue result
        ↔ ((outside : Time) × Writes table text outside × (outside.period < inside.period)) }
{
    match time_of(text, base) {
        Some(outside) => outside.period < inside.period,
        None => false,
    }
}
