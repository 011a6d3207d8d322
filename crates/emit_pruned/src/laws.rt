ghost use Rattle.emit_pruned.specs.Laws.{CallsMeanNoLines, PrunedHasNoneIdle, PrunedIsLawful, PrunedRunsAlike};

/// A pruned program keeps the static rules and the limits.
pub fn pruned_is_lawful()
    ensures { PrunedIsLawful }
{}

/// It does at each call what the whole one does.
pub fn pruned_runs_alike()
    ensures { PrunedRunsAlike }
{}

/// Each of its pure functions is called.
pub fn pruned_has_none_idle()
    ensures { PrunedHasNoneIdle }
{}

/// Which functions are called isn't a matter of lines.
pub fn calls_mean_no_lines()
    ensures { CallsMeanNoLines }
{}
