ghost use Rattle.base_core.specs.Interface.{NeedsAreLeast};

/// Every exact interface has at least as many output functions as there are different needs.
#[tactic(auto, using(crate::proofs::LeastInterface::needs_are_least))]
pub fn needs_are_least()
    ensures { NeedsAreLeast }
{}
