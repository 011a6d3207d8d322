ghost use Rattle.right_generated.specs.Laws.{GeneratedTracesAreRows};

/// No line of a generated trace is bad for the inputs of its model, where that is accepted.
#[tactic(auto, using(crate::proofs::GeneratedTraces::generated_traces_are_rows))]
pub fn generated_traces_are_rows()
    ensures { GeneratedTracesAreRows }
{}
