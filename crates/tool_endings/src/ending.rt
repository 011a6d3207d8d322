use base_core::Place;
use base_refusals::Refusal;
use c_syntax::{CFault, Stuck};
use lustre_flows::LusStuck;
use tool_runner::Totals;
use tool_script_runner::RefusedCall;
use tool_scripts::BadCall;
use tool_traces::BadLine;

/// What stops a script before its end.
#[derive(Clone, Copy, Debug, PartialEq, Eq, Drop)]
pub enum ScriptStop {
    /// The model has no system of the name that is to be driven.
    NoSubsystem,
    /// A line is no call.
    Line(BadCall),
    /// The call of a line is refused.
    Call(RefusedCall),
}

/// How a call ended, before its last text is printed.
#[derive(Debug, Drop)]
pub enum Ending {
    /// A model was compiled.
    Compiled {
        rows: u32,
        systems: u32,
        functions: u32,
    },
    /// Code was run over a whole trace, or driven by a whole script, and took this.
    Ran(Totals),
    /// This is the report on a model.
    Reported(Vec<u8>),
    /// A model was written as Lustre, in so many nodes.
    Noded(usize),
    /// The flows of a file of Lustre were run over a whole trace, in so many ticks.
    Flowed(u64),
    /// The words are no command.
    Usage,
    /// The model is refused.
    Refused(Refusal),
    /// A line of the trace is no row.
    BadTrace(BadLine),
    /// A script can't be run to its end.
    BadScript(ScriptStop),
    /// The code is no program.
    CodeRefused(CFault),
    /// The code has too many bytes.
    CodeTooLong,
    /// The code can't go on.
    Stuck(Stuck),
    /// The file is no file of Lustre.
    LustreRefused(CFault),
    /// The file of Lustre has too many bytes.
    LustreTooLong,
    /// The model has a delay that is too long for a file of Lustre.
    LustreLong(Place),
    /// The flows can't go on.
    FlowStuck(LusStuck),
    /// A file can't be read.
    ReadFault,
    /// A file can't be written whole.
    WriteFault,
    /// A line can't be printed that comes before the last text.
    PutFault,
    /// Memory ran out.
    NoMemory,
}
