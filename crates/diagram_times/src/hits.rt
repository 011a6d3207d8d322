ghost use Rattle.std.specs.Prelude.{◌≡◌};
ghost use Rattle.diagram_meaning.specs.SampleTimes as ticks;

use diagram_meaning::Time;

/// Whether tick `t` is one of the ticks of a sample time.
pub fn hit(time: Time, t: u32) -> bool
    ensures { result ≡ ticks.hit time t }
{
    t % time.period == time.offset
}
