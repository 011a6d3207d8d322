ghost use Rattle.std.specs.Prelude.{◌≡◌, ◌<◌, ◌^◌, length, IfOk};
ghost use Rattle.diagram_meaning.specs.RowTable.{RowTable};
ghost use Rattle.diagram_meaning.specs.Rows.{by_row};
ghost use Rattle.diagram_meaning.specs.SampleTimes.{outermost_trigger};
ghost use Rattle.diagram_meaning.specs.TimeRefusals.{AreInputTimes};
ghost use Rattle.diagram_times.specs.Bases.{AreCounted, IsBaseOf};
ghost use Rattle.diagram_times.specs.Collecting.{AreCollected, IsCollected};
ghost use Rattle.diagram_times.specs.Feeding.{AreInputsInside};
ghost use Rattle.diagram_times.specs.Searching.{Among, IsFound};

use crate::base::BaseTick;
use crate::feeds::{feeds, search_inputs};
use crate::given::given_times;
use crate::search::{found_at, joined, settle};
use crate::times::every_tick;
use base_core::Memory;
use diagram_meaning::{Row, Time};
use std::alloc::Global;

/// For each row the time that its inputs give: the smallest that includes all times that the search finds from them, and
/// every tick where it finds none.
pub(crate) fn input_times(
    alloc: Global,
    rows: &[Row],
    triggers: &[Option<u32>],
    base: BaseTick,
) -> Result<Vec<Time>, Memory>
    requires triggers { triggers.now ≡ by_row rows.now (outermost_trigger rows.now) }
    requires inside { AreInputsInside rows.now }
    requires few { length rows.now < 2 ^ 32 }
    requires counted { AreCounted rows.now base }
    ensures { IfOk result (λ v. (table : RowTable) → table.rows ≡ rows.now → IsBaseOf table base →
        AreInputTimes table v.items) }
{
    let graph = feeds(alloc, rows, triggers)?;
    let given = given_times(alloc, rows, triggers, base)?;
    let found = settle(alloc, &graph, &given)?;
    collect(alloc, rows, triggers, &found)
}

/// The times that the inputs of rows give, by what was found at each row.
fn collect(
    alloc: Global,
    rows: &[Row],
    triggers: &[Option<u32>],
    found: &[Option<Time>],
) -> Result<Vec<Time>, Memory>
    requires triggers { triggers.now ≡ by_row rows.now (outermost_trigger rows.now) }
    ensures { IfOk result (λ v. AreCollected rows.now found.now (length rows.now) v.items) }
{
    let mut inside = Vec::new(alloc);
    for b in 0..rows.len() {
        inside.push(input_time(alloc, rows, triggers, found, b)?)?;
    }
    Ok(inside)
}

/// The time that the inputs of a row give.
fn input_time(
    alloc: Global,
    rows: &[Row],
    triggers: &[Option<u32>],
    found: &[Option<Time>],
    b: usize,
) -> Result<Time, Memory>
    requires triggers { triggers.now ≡ by_row rows.now (outermost_trigger rows.now) }
    requires row { b < length rows.now }
    ensures { IfOk result (IsCollected rows.now found.now b) }
{
    let inputs = search_inputs(alloc, rows, triggers, b)?;
    Ok(found_among(found, &inputs).unwrap_or(every_tick()))
}

/// The smallest time that includes those that were found at some rows, none where none was.
fn found_among(found: &[Option<Time>], rows: &[u32]) -> Option<Time>
    ensures { IsFound (Among found.now rows.now) result }
{
    let mut all = None;
    for row in rows {
        all = joined(all, found_at(found, *row as usize));
    }
    all
}
