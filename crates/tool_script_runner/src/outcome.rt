use tool_driver::DriveFault;
use tool_scripts::BadCall;

/// A line of a script whose call the driver refused, by its number from 1, and why.
#[derive(Clone, Copy, Debug, PartialEq, Eq, Drop)]
pub struct RefusedCall {
    /// The number of the line, from 1.
    pub line: u32,
    /// Why the call was refused.
    pub why: DriveFault,
}

/// Why a run stopped before the end of its script.
#[derive(Clone, Copy, Debug, PartialEq, Eq, Drop)]
pub enum ScriptFault {
    /// The script can't be read.
    Read,
    /// A line can't be printed.
    Out,
    /// The first line of the script that is no call by itself.
    Line(BadCall),
    /// The first line whose call the driver refused.
    Call(RefusedCall),
    /// Memory ran out.
    Memory,
}
