ghost use Rattle.diagram_typed_runs.specs.TypedRuns.{TicksAreTyped};

/// Where a trace lies in its types, so does all else in its run.
pub fn ticks_are_typed()
    ensures { TicksAreTyped }
{}
