ghost use Rattle.lustre_flows.specs.FlowLaws.{OrderedTicksAreDone, StuckExactly};
ghost use Rattle.lustre_settling.specs.LongerTraces.{FlowsOfMoreRows};

/// A tick is stuck exactly where some name gets no value.
#[tactic(auto, using(crate::proofs::lemmas::Stuck::stuck_exactly))]
pub fn stuck_exactly()
    ensures { StuckExactly }
{}

/// A tick is done, and leaves the given values, where names have ranks such that a pass from those of the lower ranks gives
/// those of the next.
pub fn ordered_ticks_are_done()
    ensures { OrderedTicksAreDone }
{}

/// The flows and outputs over further rows begin with those over fewer, and are the same once a tick is stuck.
#[tactic(auto, using(crate::proofs::LongerTraces::flows_of_more_rows))]
pub fn flows_of_more_rows()
    ensures { FlowsOfMoreRows }
{}
