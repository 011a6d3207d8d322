// A line of a trace: its row, and the tick of it.
ghost use Rattle.std.specs.Prelude.{◌≡◌, ◌≤◌, length, MatchResult};
ghost use Rattle.tool_runner.specs.Texts.{outputs_line};
ghost use Rattle.tool_runner.specs.Rows.{IsRow, IsNoRow};
ghost use Rattle.tool_runner.specs.Lines.{HasRoom, Ticks, Stops};

use crate::outcome::RunStop;
use crate::outputs::put_line;
use crate::rows::{long_row, next_row};
use crate::run::Run;
use base_host::{Failed, PutBuffer, Sink};
use c_interpreter::Machine;
use tool_stream::LineWalk;

impl<'a> LineWalk for Run<'a> {
    type Machine = Machine;

    type Stop = RunStop;

    ghost ready = { λ at. HasRoom at.0 at.1 };

    ghost count = { λ run. run.totals.ticks };

    ghost steps = { λ at line at'. Ticks line at.0 at'.0 at.1 at'.1 };

    ghost stops = { λ at line stop at'. Stops stop line at.0 at'.0 at.1 at'.1 };

    ghost said = { λ run. outputs_line run.outputs.items };

    fn line(&mut self, machine: &mut Machine, line: &[u8]) -> Result<(), RunStop> {
        match next_row(line, self.totals.ticks as u32, self.types, &mut self.row) {
            Ok(()) => match self.tick(machine) {
                Ok(()) => Ok(()),
                Err(at) => Err(RunStop::Stuck(at)),
            },
            Err(bad) => Err(RunStop::Trace(bad)),
        }
    }

    fn too_long(&self) -> RunStop {
        RunStop::Trace(long_row(self.totals.ticks as u32))
    }

    fn print<S: Sink>(&self, lines: &mut PutBuffer, sink: &mut S) -> Result<(), Failed> {
        put_line(lines, sink, &self.outputs)
    }
}
