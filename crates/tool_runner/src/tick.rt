// One tick of a run.
ghost use Rattle.std.specs.Prelude.{◌≡◌, ◌+◌, ◌<◌, ◌^◌, length, OnOk, MatchResult};
ghost use Rattle.c_interpreter.specs.Machines.{IsRow};
ghost use Rattle.tool_runner.specs.Runs.{no_totals};
ghost use Rattle.tool_runner.specs.Ticks.{StaysWithin, counted, Ticked, StuckOn};

use crate::outcome::Totals;
use crate::run::Run;
use c_interpreter::Machine;
use c_syntax::{Cost, Stuck};

impl Totals {
    // The totals before the first tick.
    pub(crate) fn none() -> Totals
        ensures { result ≡ no_totals }
    {
        Totals {
            ticks: 0,
            steps: 0,
            calls: 0,
        }
    }

    // Counts a tick that took this.
    fn count(&mut self, cost: Cost)
        requires ticks { self.old.ticks + 1 < 2 ^ 64 }
        requires steps { self.old.steps + cost.steps < 2 ^ 64 }
        requires calls { self.old.calls + cost.calls < 2 ^ 64 }
        ensures { self.new ≡ counted self.old cost }
    {
        self.ticks += 1;
        self.steps += cost.steps;
        self.calls += cost.calls;
    }
}

impl<'a> Run<'a> {
    // The tick of the row: the machine goes on, and the totals count it.
    pub(crate) fn tick(&mut self, machine: &mut Machine) -> Result<(), Stuck>
        requires row { IsRow machine.old self.old.row.items }
        requires outputs { length self.old.outputs.items ≡ machine.old.program.outputs }
        requires within { StaysWithin self.old.totals }
        requires more { self.old.totals.ticks < 4294967295 }
        ensures ticked { MatchResult result
            (λ _. Ticked self.old.row.items self.new.outputs.items machine.old machine.new self.old.totals
            self.new.totals)
            (λ at. StuckOn at self.old.row.items machine.old machine.new self.old.totals
            self.new.totals) }
        ensures within { OnOk result (StaysWithin self.new.totals) }
        ensures types { self.new.types.now ≡ self.old.types.now }
        ensures row { length self.new.row.items ≡ length self.old.row.items }
        ensures outputs { length self.new.outputs.items ≡ length self.old.outputs.items }
        ensures program { machine.new.program ≡ machine.old.program }
    {
        let cost = machine.tick(&self.row, &mut self.outputs)?;
        self.totals.count(cost);
        Ok(())
    }
}
