// What a run holds, all of its memory taken before the first call.
ghost use Rattle.std.specs.Prelude.{◌≡◌, ◌+◌, ◌≤◌, [], length, IfOk};
ghost use Rattle.tool_runner.specs.Runs.{no_totals};

use base_host::PutBuffer;
use std::alloc::{AllocError, Global};
use tool_runner::Totals;

/// The values of a call, the number of a function with what it reported, the lines that wait to be printed, how many calls were
/// answered, and what they took.
#[derive(Drop)]
pub(crate) struct Run {
    pub(crate) values: Vec<i64>,
    pub(crate) numbers: Vec<i64>,
    pub(crate) lines: PutBuffer,
    pub(crate) done: u32,
    pub(crate) totals: Totals,
}

impl Run {
    // A run that has not begun, of a system with so many inputs and outputs.
    pub(crate) fn new(alloc: Global, inputs: usize, outputs: usize) -> Result<Run, AllocError>
        requires { outputs ≤ 32 }
        ensures values { IfOk result (λ run. length run.values.items ≡ inputs) }
        ensures numbers { IfOk result (λ run. length run.numbers.items ≡ outputs + 1) }
        ensures lines { IfOk result (λ run. run.lines ≡ []) }
        ensures done { IfOk result (λ run. run.done ≡ 0) }
        ensures totals { IfOk result (λ run. run.totals ≡ no_totals) }
    {
        Ok(Run {
            values: vec![in alloc; 0i64; inputs]?,
            numbers: vec![in alloc; 0i64; outputs + 1]?,
            lines: PutBuffer::new(alloc)?,
            done: 0,
            totals: Totals {
                ticks: 0,
                steps: 0,
                calls: 0,
            },
        })
    }
}
