ghost use Rattle.std.specs.Prelude.{◌≡◌};
ghost use Rattle.diagram_meaning.specs.SampleTimes as time;

use base_core::TimeText;
use diagram_blocks::Kind;
use diagram_meaning::Row;

/// The time that a row writes: of a rate transition that of its output, and a ground is constant.
pub(crate) fn written_time(row: &Row) -> TimeText
    ensures { result ≡ time.written_by row.now.kind row.now.time_text }
{
    match row.kind {
        Kind::RateTransition { out, .. } => out,
        Kind::Ground => TimeText::Constant,
        _ => row.time_text,
    }
}

/// The time that a row gives to those that it feeds, by the outermost subsystem with a trigger around it.
pub(crate) fn search_time(row: &Row, trigger: Option<u32>) -> TimeText
    ensures { result
        ≡ time.search_time_in trigger (time.written_by row.now.kind row.now.time_text) }
{
    match trigger {
        Some(_) => TimeText::Inherit,
        None => written_time(row),
    }
}
