ghost use Rattle.std.specs.Prelude.{◌≡◌, ◌<◌, length, IfOk};
ghost use Rattle.diagram_meaning.specs.RowTable.{RowTable};
ghost use Rattle.diagram_meaning.specs.Rows.{by_row};
ghost use Rattle.diagram_meaning.specs.SampleTimes.{outermost_trigger};
ghost use Rattle.diagram_meaning.specs.TimeRefusals.{AreInputTimes};
ghost use Rattle.diagram_times.specs.Bases.{AreCounted, IsBaseOf};
ghost use Rattle.diagram_times.specs.Running.{AreRunTimes, AreDelays};

use crate::base::BaseTick;
use crate::running::{delays, time_of_row};
use base_core::Memory;
use diagram_meaning::{Row, Time};
use std::alloc::Global;

/// The sample times of rows, by the times that their inputs give.
pub(crate) fn run_times(
    alloc: Global,
    rows: &[Row],
    triggers: &[Option<u32>],
    inside: &[Time],
    base: BaseTick,
) -> Result<Vec<Time>, Memory>
    requires triggers { triggers.now ≡ by_row rows.now (outermost_trigger rows.now) }
    requires counted { AreCounted rows.now base }
    requires len { length inside.now ≡ length rows.now }
    ensures { IfOk result (λ v. (table : RowTable) → table.rows ≡ rows.now → IsBaseOf table base →
        AreInputTimes table inside.now → AreRunTimes table (length rows.now) v.items) }
{
    let mut run = Vec::new(alloc);
    for b in 0..rows.len() {
        run.push(time_of_row(rows, triggers, inside[b], base, b))?;
    }
    Ok(run)
}

/// Which rows are delays between rates, by the times that the inputs of the rows give.
pub(crate) fn delay_marks(
    alloc: Global,
    rows: &[Row],
    triggers: &[Option<u32>],
    inside: &[Time],
    base: BaseTick,
) -> Result<Vec<bool>, Memory>
    requires triggers { triggers.now ≡ by_row rows.now (outermost_trigger rows.now) }
    requires counted { AreCounted rows.now base }
    requires len { length inside.now ≡ length rows.now }
    ensures { IfOk result (λ v. (table : RowTable) → table.rows ≡ rows.now → IsBaseOf table base →
        AreInputTimes table inside.now → AreDelays table (length rows.now) v.items) }
{
    let mut marks = Vec::new(alloc);
    for b in 0..rows.len() {
        marks.push(delays(rows, triggers, inside[b], base, b))?;
    }
    Ok(marks)
}
