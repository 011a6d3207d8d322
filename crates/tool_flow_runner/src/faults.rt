// Errors of a stream as those of flows.
ghost use Rattle.std.specs.Prelude.{◌≡◌};
ghost use Rattle.tool_flow_runner.specs.Faults.{flow_fault};

use crate::outcome::{FlowFault, FlowStop};
use tool_stream::StreamFault;

impl FlowFault {
    // The error of a walk over a trace.
    pub(crate) fn of_stream(fault: StreamFault<FlowStop>) -> FlowFault
        ensures { result ≡ flow_fault fault }
    {
        match fault {
            StreamFault::Read => FlowFault::Read,
            StreamFault::Put => FlowFault::Put,
            StreamFault::Line(FlowStop::Bad(bad)) => FlowFault::Bad(bad),
            StreamFault::Line(FlowStop::Stuck(at)) => FlowFault::Stuck(at),
        }
    }
}
