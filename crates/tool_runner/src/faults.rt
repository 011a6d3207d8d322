// Errors of a stream as those of a run.
ghost use Rattle.std.specs.Prelude.{◌≡◌};
ghost use Rattle.tool_runner.specs.Faults.{run_fault};

use crate::outcome::{RunFault, RunStop};
use tool_stream::StreamFault;

impl RunFault {
    // The error of a walk over a trace.
    pub(crate) fn of_stream(fault: StreamFault<RunStop>) -> RunFault
        ensures { result ≡ run_fault fault }
    {
        match fault {
            StreamFault::Read => RunFault::Read,
            StreamFault::Put => RunFault::Out,
            StreamFault::Line(RunStop::Trace(bad)) => RunFault::Trace(bad),
            StreamFault::Line(RunStop::Stuck(at)) => RunFault::Stuck(at),
        }
    }
}
