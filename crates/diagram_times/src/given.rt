ghost use Rattle.std.specs.Prelude.{◌≡◌, ◌<◌, length, IfOk};
ghost use Rattle.diagram_meaning.specs.Rows.{by_row};
ghost use Rattle.diagram_meaning.specs.SampleTimes.{outermost_trigger, search_time};
ghost use Rattle.diagram_meaning.specs.SampleTimes as search;
ghost use Rattle.diagram_times.specs.Bases.{AreCounted, AreGiven, IsTimeOf};

use crate::base::BaseTick;
use crate::texts::search_time;
use crate::times::time_of;
use crate::triggers::trigger_at;
use base_core::Memory;
use diagram_meaning::{Row, Time};
use std::alloc::Global;

/// The times that the rows give by themselves to those that they feed.
pub(crate) fn given_times(
    alloc: Global,
    rows: &[Row],
    triggers: &[Option<u32>],
    base: BaseTick,
) -> Result<Vec<Option<Time>>, Memory>
    requires triggers { triggers.now ≡ by_row rows.now (outermost_trigger rows.now) }
    requires counted { AreCounted rows.now base }
    ensures { IfOk result (λ v. AreGiven rows.now base (length rows.now) v.items) }
{
    let mut given = Vec::new(alloc);
    for b in 0..rows.len() {
        given.push(given_time(rows, triggers, base, b))?;
    }
    Ok(given)
}

/// The time that a row gives by itself.
fn given_time(rows: &[Row], triggers: &[Option<u32>], base: BaseTick, b: usize) -> Option<Time>
    requires triggers { triggers.now ≡ by_row rows.now (outermost_trigger rows.now) }
    requires counted { AreCounted rows.now base }
    requires row { b < length rows.now }
    ensures { IsTimeOf base (search.search_time rows.now b) result }
{
    time_of(search_time(&rows[b], trigger_at(rows, triggers, b)), base)
}
