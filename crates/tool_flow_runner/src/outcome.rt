use lustre_interpreter::LusStuck;
use tool_traces::BadLine;

/// Why a line of a trace ends the flows.
#[derive(Clone, Copy, Debug, PartialEq, Eq, Drop)]
pub enum FlowStop {
    /// It is no row.
    Bad(BadLine),
    /// The place where its tick is stuck.
    Stuck(LusStuck),
}

/// Why the flows of a file stop before the end of a trace.
#[derive(Clone, Copy, Debug, PartialEq, Eq, Drop)]
pub enum FlowFault {
    /// The trace can't be read.
    Read,
    /// A line of outputs can't be printed.
    Put,
    /// The first line of the trace that is no row.
    Bad(BadLine),
    /// The place where a tick is stuck.
    Stuck(LusStuck),
    /// Memory ran out.
    Memory,
}
