ghost use Rattle.std.specs.Prelude.{◌≡◌, ◌≤◌, ◌^◌, fold, map};
ghost use Rattle.base_core.specs.Numbers as divisor;
ghost use Rattle.diagram_meaning.specs.RowTable.{RowTable};
ghost use Rattle.diagram_meaning.specs.SampleTimes.{common_denominator, fractions, fractions_in};
ghost use Rattle.diagram_meaning.specs.SampleTimes as written;
ghost use Rattle.diagram_times.specs.Bases.{IsBaseOf};
ghost use Rattle.diagram_times.specs.Lawful.{AreLawful, IsLawfulText};

use crate::base::{BaseTick, numerator_over};
use crate::texts::written_time;
use base_core::{Frac, TimeText, gcd};
use diagram_meaning::Row;

/// The base tick of rows and of the written step, over their common denominator.
pub(crate) fn base_tick(rows: &[Row], step: Option<Frac>, denominator: u64) -> BaseTick
    requires lawful { AreLawful rows.now step }
    requires low { denominator ≤ 10 ^ 9 }
    ensures { (table : RowTable) → table.rows ≡ rows.now → table.fixed_step ≡ step →
        denominator ≡ common_denominator (fractions table) → IsBaseOf table result }
{
    let mut numerator = match step {
        Some(step) => numerator_over(denominator, step),
        None => 0,
    };
    for row in rows {
        numerator = refined(numerator, denominator, written_time(row));
    }
    BaseTick {
        denominator,
        numerator,
    }
}

/// The greatest common divisor of a numerator and those of the period and the offset that a text writes.
fn refined(numerator: u64, denominator: u64, text: TimeText) -> u64
    requires lawful { IsLawfulText text }
    requires low { denominator ≤ 10 ^ 9 }
    ensures { result
        ≡ fold divisor.gcd numerator
        (map (written.numerator_over denominator) (fractions_in text)) }
{
    match text {
        TimeText::Inherit | TimeText::Constant => numerator,
        TimeText::Each { period, offset } => {
            let by_period = gcd(numerator, numerator_over(denominator, period));
            gcd(by_period, numerator_over(denominator, offset))
        }
    }
}
