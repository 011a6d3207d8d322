// A line of a trace: its row, and the tick of it.
ghost use Rattle.std.specs.Prelude.{◌≡◌, ◌≤◌, length, MatchResult};
ghost use Rattle.tool_runner.specs.Texts.{outputs_line};
ghost use Rattle.tool_plain_rows.specs.Lines.{IsRow, IsNoRow};
ghost use Rattle.tool_flow_runner.specs.Lines.{HasRoom, Ticks, Stops};

use crate::outcome::FlowStop;
use crate::walk::Walk;
use base_host::{Failed, PutBuffer, Sink};
use lustre_interpreter::Flows;
use tool_plain_rows::{long_plain_row, next_plain_row};
use tool_runner::put_line;
use tool_stream::LineWalk;

impl LineWalk for Walk {
    type Machine = Flows;

    type Stop = FlowStop;

    ghost ready = { λ at. HasRoom at.0 at.1 };

    ghost count = { λ walk. walk.ticks };

    ghost steps = { λ at line at'. Ticks line at.0 at'.0 at.1 at'.1 };

    ghost stops = { λ at line stop at'. Stops stop line at.0 at.1 at'.1 };

    ghost said = { λ walk. outputs_line walk.outputs.items };

    fn line(&mut self, flows: &mut Flows, line: &[u8]) -> Result<(), FlowStop> {
        if let Err(bad) = next_plain_row(line, self.ticks as u32, &mut self.row) {
            return Err(FlowStop::Bad(bad));
        }
        if let Err(at) = flows.tick(&self.row, &mut self.outputs) {
            return Err(FlowStop::Stuck(at));
        }
        self.ticks += 1;
        Ok(())
    }

    fn too_long(&self) -> FlowStop {
        FlowStop::Bad(long_plain_row(self.ticks as u32))
    }

    fn print<S: Sink>(&self, lines: &mut PutBuffer, sink: &mut S) -> Result<(), Failed> {
        put_line(lines, sink, &self.outputs)
    }
}
