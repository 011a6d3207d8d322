ghost use Rattle.std.specs.Prelude.{◌≡◌, ◌<◌, ◌≤◌, ◌^◌, None, Some, IfOk, IfErr, OnOk};
ghost use Rattle.base_core.specs.Numbers as multiples;
ghost use Rattle.base_refusals.specs.Refusals as plain;
ghost use Rattle.base_refusals.specs.FirstRefusal.{as_plain};
ghost use Rattle.diagram_meaning.specs.RowTable.{RowTable};
ghost use Rattle.diagram_meaning.specs.SampleTimes as sample;
ghost use Rattle.diagram_meaning.specs.TimeRefusals as refusal;
ghost use Rattle.diagram_times.specs.Bases.{AreCounted, IsBaseOf};
ghost use Rattle.diagram_times.specs.Lawful.{AreLawful, ArePeriodsCountable};

use crate::base::BaseTick;
use crate::texts::written_time;
use crate::ticks::ticks;
use base_core::{Frac, TimeText, lcm};
use base_refusals::{CycleWhat, Refusal};
use diagram_meaning::Row;

const MOST_DENOMINATOR: u64 = 1_000_000_000;

const MOST_PERIOD: u64 = 1_000_000;

const MOST_CYCLE: u64 = 1 << 30;

/// A least common multiple that grows up to a limit.
#[derive(Drop)]
struct Multiple {
    so_far: u64,
    limit: u64,
    what: CycleWhat,
}

impl Multiple {
    /// Makes it a multiple of one more number, or reports it where it is above the limit.
    fn grow(&mut self, number: u64, line: u32) -> Result<(), Refusal>
        requires some { 0 < self.old.so_far }
        requires low { self.old.so_far < 2 ^ 32 }
        requires number { 0 < number }
        requires small { number < 2 ^ 32 }
        ensures grown { OnOk result (self.new.so_far ≡ multiples.lcm self.old.so_far number) }
        ensures within { OnOk result (self.new.so_far ≤ self.old.limit) }
        ensures same { (self.new.limit ≡ self.old.limit) × (self.new.what ≡ self.old.what) }
        ensures refused { IfErr result (λ r. plain.plain_refusal r
            ≡ plain.LongCycle line self.old.what (multiples.lcm self.old.so_far number)) }
        ensures above { IfErr result (λ r. self.old.limit < multiples.lcm self.old.so_far number) }
    {
        let multiple = lcm(self.so_far, number);
        if multiple > self.limit {
            return Err(Refusal::LongCycle {
                line,
                what: self.what,
                h: multiple,
            });
        }
        self.so_far = multiple;
        Ok(())
    }
}

/// The common denominator of the written step and of all periods and offsets, row by row.
pub(crate) fn common_denominator(rows: &[Row], step: Option<Frac>) -> Result<u64, Refusal>
    requires { AreLawful rows.now step }
    ensures accepted { OnOk result ((table : RowTable) → table.rows ≡ rows.now → table.fixed_step ≡ step →
        refusal.long_denominator table ≡ None) }
    ensures denominator { IfOk result (λ d. (table : RowTable) → table.rows ≡ rows.now →
        table.fixed_step ≡ step → d ≡ sample.common_denominator (sample.fractions table)) }
    ensures low { IfOk result (λ d. d ≤ 10 ^ 9) }
    ensures refused { IfErr result (λ r. (table : RowTable) → table.rows ≡ rows.now →
        table.fixed_step ≡ step → refusal.long_denominator table ≡ Some (plain.plain_refusal r)) }
{
    let mut denominator = Multiple {
        so_far: step.map_or(1, |step| step.den),
        limit: MOST_DENOMINATOR,
        what: CycleWhat::Denominator,
    };
    for row in rows {
        if let TimeText::Each { period, offset } = written_time(row) {
            denominator.grow(period.den, row.place.line)?;
            if offset.num != 0 {
                denominator.grow(offset.den, row.place.line)?;
            }
        }
    }
    Ok(denominator.so_far)
}

/// The first row whose period is above a million base ticks.
pub(crate) fn long_period(rows: &[Row], base: BaseTick) -> Option<Refusal>
    requires { ArePeriodsCountable rows.now base }
    ensures { (table : RowTable) → table.rows ≡ rows.now → IsBaseOf table base →
        as_plain result ≡ refusal.long_period table }
{
    for row in rows {
        if let TimeText::Each { period, .. } = written_time(row) {
            let h = ticks(base, period);
            if h > MOST_PERIOD {
                let line = row.place.line;
                let what = CycleWhat::Period;
                return Some(Refusal::LongCycle { line, what, h });
            }
        }
    }
    None
}

/// The cycle after which all hits repeat: the least common multiple of all periods, row by row.
pub(crate) fn hyperperiod(rows: &[Row], base: BaseTick) -> Result<u64, Refusal>
    requires { AreCounted rows.now base }
    ensures accepted { OnOk result ((table : RowTable) → table.rows ≡ rows.now → IsBaseOf table base →
        refusal.long_cycle table ≡ None) }
    ensures cycle { IfOk result (λ h. (table : RowTable) → table.rows ≡ rows.now →
        IsBaseOf table base → h ≡ sample.hyperperiod table) }
    ensures low { IfOk result (λ h. h ≤ 2 ^ 30) }
    ensures refused { IfErr result (λ r. (table : RowTable) → table.rows ≡ rows.now →
        IsBaseOf table base → refusal.long_cycle table ≡ Some (plain.plain_refusal r)) }
{
    let mut cycle = Multiple {
        so_far: 1,
        limit: MOST_CYCLE,
        what: CycleWhat::Hyper,
    };
    for row in rows {
        if let TimeText::Each { period, .. } = written_time(row) {
            cycle.grow(ticks(base, period), row.place.line)?;
        }
    }
    Ok(cycle.so_far)
}
