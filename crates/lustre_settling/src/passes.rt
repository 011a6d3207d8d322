ghost use Rattle.lustre_flows.specs.FlowLaws.{OneValueEach, PassesSettle};
ghost use Rattle.lustre_settling.specs.Settling.{PassesKeepOrder, TicksComeToRest};

/// The more values an instance has before a pass, the more it has after it.
#[tactic(auto, using(crate::proofs::lemmas::Settled::passes_keep_order))]
pub fn passes_keep_order()
    ensures { PassesKeepOrder }
{}

/// Each pass of a tick keeps the values that there are, and as many passes as there are names come to rest.
pub fn ticks_come_to_rest()
    ensures { TicksComeToRest }
{}

/// A name gets one value in a tick.
pub fn one_value_each()
    ensures { OneValueEach }
{}

/// A name gets a value in some number of passes exactly where it has that value in what the tick leaves.
pub fn passes_settle()
    ensures { PassesSettle }
{}
