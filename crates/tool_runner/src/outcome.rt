use c_syntax::Stuck;
use tool_traces::BadLine;

/// What a run took: its ticks, and the steps and the calls of interface procedures in them.
#[derive(Clone, Copy, Debug, PartialEq, Eq, Drop)]
pub struct Totals {
    /// How many ticks were run.
    pub ticks: u64,
    /// How many steps they took.
    pub steps: u64,
    /// How many calls of interface procedures they made.
    pub calls: u64,
}

/// Why a line of a trace ends a run.
#[derive(Clone, Copy, Debug, PartialEq, Eq, Drop)]
pub enum RunStop {
    /// It is no row.
    Trace(BadLine),
    /// The place where the machine is stuck in its tick.
    Stuck(Stuck),
}

/// Why a run stopped before the end of its trace.
#[derive(Clone, Copy, Debug, PartialEq, Eq, Drop)]
pub enum RunFault {
    /// The trace can't be read.
    Read,
    /// A line of outputs can't be printed.
    Out,
    /// The first line of the trace that is no row.
    Trace(BadLine),
    /// The place where the machine is stuck.
    Stuck(Stuck),
    /// Memory ran out.
    Memory,
}

/// What a run came to.
#[derive(Clone, Copy, Debug, PartialEq, Eq, Drop)]
pub struct Ran {
    /// What was executed.
    pub totals: Totals,
    /// Whether all of the trace was run, or why not.
    pub ended: Result<(), RunFault>,
}
