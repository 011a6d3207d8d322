ghost use Rattle.std.specs.Prelude.{◌≡◌, ◌<◌, ◌^◌, None, Some, IfOk, IfErr, OnOk, length};
ghost use Rattle.base_refusals.specs.Refusals.{plain_refusal};
ghost use Rattle.diagram_meaning.specs.RowTable.{RowTable};
ghost use Rattle.diagram_meaning.specs.Rows.{by_row};
ghost use Rattle.diagram_meaning.specs.SampleTimes.{hyperperiod, outermost_trigger};
ghost use Rattle.diagram_meaning.specs.TimeRefusals.{written_time_refusal};
ghost use Rattle.diagram_times.specs.Bases.{AreCounted, IsBaseOf};
ghost use Rattle.diagram_times.specs.Feeding.{AreInputsInside};
ghost use Rattle.diagram_times.specs.Lawful.{AreLawful};
ghost use Rattle.diagram_times.specs.Inferred.{AreInferred, IsTimeFault};

use crate::base::BaseTick;
use crate::bases::base_tick;
use crate::cycles::{common_denominator, hyperperiod, long_period};
use crate::inputs::input_times;
use crate::inside::least_time_inside;
use crate::rates::least_bad_rate;
use crate::run::{delay_marks, run_times};
use crate::triggers::outer_triggers;
use base_core::{Frac, Memory};
use base_refusals::Refusal;
use diagram_meaning::{BuildFault, Row, Times, Tree};
use std::alloc::Global;

/// The base tick, and the cycle after which all hits repeat.
#[derive(Clone, Copy, Drop)]
struct Ticks {
    base: BaseTick,
    hyper: u32,
}

/// The base tick and the cycle of the written times, or the first refusal for them.
fn ticks_of(rows: &[Row], step: Option<Frac>, triggers: &[Option<u32>]) -> Result<Ticks, Refusal>
    requires triggers { triggers.now ≡ by_row rows.now (outermost_trigger rows.now) }
    requires lawful { AreLawful rows.now step }
    ensures accepted { OnOk result (written_time_refusal (record { rows = rows.now; fixed_step = step })
        ≡ None) }
    ensures base { IfOk result (λ t. IsBaseOf (record { rows = rows.now; fixed_step = step }) t.base) }
    ensures counted { IfOk result (λ t. AreCounted rows.now t.base) }
    ensures hyper { IfOk result (λ t. t.hyper ≡ hyperperiod (record { rows = rows.now; fixed_step = step })) }
    ensures refused { IfErr result (λ r. written_time_refusal (record { rows = rows.now; fixed_step = step })
        ≡ Some (plain_refusal r)) }
{
    if let Some(refused) = least_time_inside(rows, triggers) {
        return Err(refused);
    }
    let denominator = common_denominator(rows, step)?;
    let base = base_tick(rows, step, denominator);
    if let Some(refused) = long_period(rows, base) {
        return Err(refused);
    }
    let hyper = hyperperiod(rows, base)? as u32;
    Ok(Ticks { base, hyper })
}

/// The sample times of rows, with the written step of their model.
pub(crate) fn infer(alloc: Global, rows: &[Row], step: Option<Frac>) -> Result<Times, BuildFault>
    requires lawful { AreLawful rows.now step }
    requires inside { AreInputsInside rows.now }
    requires few { length rows.now < 2 ^ 32 }
    ensures times { IfOk result (λ times. AreInferred (record { rows = rows.now; fixed_step = step }) times) }
    ensures refused { IfErr result (IsTimeFault (record { rows = rows.now; fixed_step = step })) }
{
    let triggers = outer_triggers(alloc, rows)?;
    let ticks = match ticks_of(rows, step, &triggers) {
        Ok(ticks) => ticks,
        Err(refused) => return Err(BuildFault::Refused(refused)),
    };
    let inside = input_times(alloc, rows, &triggers, ticks.base)?;
    if let Some(refused) = least_bad_rate(rows, &inside, ticks.base) {
        return Err(BuildFault::Refused(refused));
    }
    let run = run_times(alloc, rows, &triggers, &inside, ticks.base)?;
    let delays = delay_marks(alloc, rows, &triggers, &inside, ticks.base)?;
    let hyper = ticks.hyper;
    Ok(Times { run, delays, hyper })
}

/// The sample times of all rows of a diagram, in base ticks, which of them are delays between rates, and the cycle after
/// which all hits repeat.
///
/// Refused with the first of what is wrong with sample times: one written inside a subsystem with a trigger, then a common
/// denominator, a period or a cycle that is too long, then a rate transition between times without a whole ratio.
pub fn infer_times(alloc: Global, tree: &Tree) -> Result<Times, BuildFault>
    ensures times { IfOk result (λ times. AreInferred tree.now.table times) }
    ensures refused { IfErr result (IsTimeFault tree.now.table) }
{
    let table = tree.table();
    infer(alloc, table.rows.as_slice(), table.fixed_step)
}
