ghost use Rattle.std.specs.Prelude.{◌≡◌, ◌&&◌, is_some};
ghost use Rattle.base_refusals.specs.Refusals as plain;
ghost use Rattle.base_refusals.specs.FirstRefusal.{as_plain, found_where, least_line};
ghost use Rattle.diagram_meaning.specs.Rows.{by_row};
ghost use Rattle.diagram_meaning.specs.SampleTimes.{outermost_trigger, written_by, written_time};
ghost use Rattle.diagram_meaning.specs.TimeRefusals.{is_each as writes_period, times_inside};
ghost use Rattle.diagram_meaning.specs.TypeRefusals.{line_at};
ghost use Rattle.std.specs.Prelude.{◌<◌, length};

use crate::texts::written_time;
use crate::triggers::trigger_at;
use base_core::TimeText;
use base_refusals::{Refusal, earlier};
use diagram_meaning::Row;

/// The first row that writes a period inside a subsystem with a trigger.
pub(crate) fn least_time_inside(rows: &[Row], triggers: &[Option<u32>]) -> Option<Refusal>
    requires { triggers.now ≡ by_row rows.now (outermost_trigger rows.now) }
    ensures { as_plain result ≡ least_line (times_inside rows.now) }
{
    let mut least = None;
    let mut b = rows.len();
    'back: while b > 0 {
        b -= 1;
        least = earlier(inside_fault(rows, triggers, b), least);
    }
    least
}

/// What is wrong with a row, if it writes a period inside a subsystem with a trigger.
fn inside_fault(rows: &[Row], triggers: &[Option<u32>], b: usize) -> Option<Refusal>
    requires triggers { triggers.now ≡ by_row rows.now (outermost_trigger rows.now) }
    requires row { b < length rows.now }
    ensures { as_plain result
        ≡ found_where (λ b. is_some (outermost_trigger rows.now b)
        && writes_period (written_time rows.now b))
        (λ b. plain.TimeInside (line_at rows.now b)) b }
{
    let row = &rows[b];
    if trigger_at(rows, triggers, b).is_some() && is_each(written_time(row)) {
        let line = row.place.line;
        Some(Refusal::TimeInside { line })
    } else {
        None
    }
}

/// Whether a text writes a period.
fn is_each(text: TimeText) -> bool
    ensures { result ≡ writes_period text }
{
    match text {
        TimeText::Inherit | TimeText::Constant => false,
        TimeText::Each { .. } => true,
    }
}
