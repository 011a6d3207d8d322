// One call of a script through the driver.
ghost use Rattle.std.specs.Prelude.{◌≡◌, ◌≢◌, ◌+◌, ◌<◌, ◌^◌, ◌≤◌, length, take, Err, IfOk, IsErrOf, OnErr, OnOk, MatchResult};
ghost use Rattle.base_host.specs.Faults.{Rose};
ghost use Rattle.right_claim.specs.Scripts.{out_with, update_with};
ghost use Rattle.tool_scripts.specs.Calls.{read_as};
ghost use Rattle.tool_driver.specs.Shapes.{function_inputs, function_outputs, inputs_of};
ghost use Rattle.tool_runner.specs.Runs.{added};
ghost use Rattle.tool_script_runner.specs.Answers.{IsRefused};
ghost use Rattle.tool_script_runner.specs.Walks.{inside, IsCallFor, StaysWithin, HasRoom, IsTold, HasTold, IsUpdated, HasUpdated, IsRefusedOn, GoesOn, StopsOn};

use crate::line::put_call;
use crate::outcome::{RefusedCall, ScriptFault};
use crate::run::Run;
use base_host::Sink;
use c_syntax::Cost;
use tool_driver::{DriveFault, Driver};
use tool_scripts::{ReadCall, ScriptLine};

impl Run {
    // Counts a call that took this, and so many ticks.
    fn count(&mut self, cost: Cost, ticks: u64)
        requires within { StaysWithin self.old.done self.old.totals }
        requires more { self.old.done < 4294967295 }
        requires steps { cost.steps ≤ 2 ^ 32 }
        requires calls { cost.calls ≤ 2 ^ 32 + 1 }
        requires one { ticks ≤ 1 }
        ensures counted { self.new ≡ record self.old {
          done = self.old.done + 1;
          totals =
              added self.old.totals
              (record { ticks = ticks; steps = cost.steps; calls = cost.calls });
        } }
        ensures still { StaysWithin self.new.done self.new.totals }
    {
        self.totals.ticks += ticks;
        self.totals.steps += cost.steps;
        self.totals.calls += cost.calls;
        self.done += 1;
    }
}

// A call of a function. Its number and what it reported are written into `numbers`.
fn call_function(
    driver: &mut Driver,
    function: u32,
    values: &[i64],
    numbers: &mut [i64],
) -> Result<Cost, DriveFault>
    requires least { 0 < function }
    requires most { function ≤ length driver.old.shape.functions }
    requires values { length values.now ≡ length (function_inputs driver.old.shape function) }
    requires room { length numbers.old ≡ length (function_outputs driver.old.shape function) + 1 }
    ensures answered { MatchResult result
        (λ cost. IsTold function values.now numbers.new cost driver.old driver.new)
        (λ why. IsRefused why (out_with function values.now) driver.old driver.new) }
{
    numbers[0] = i64::from(function);
    driver.call(function, values, &mut numbers[1..])
}

// A call of a function with the first values. Says what it took, and how many numbers, its own in front, it reported.
fn call_with(
    driver: &mut Driver,
    function: u32,
    count: usize,
    values: &[i64],
    numbers: &mut [i64],
) -> Result<(Cost, usize), DriveFault>
    requires least { 0 < function }
    requires most { function ≤ length driver.old.shape.functions }
    requires within { count ≤ length values.now }
    requires count { count ≡ length (function_inputs driver.old.shape function) }
    requires room { length numbers.old ≡ length driver.old.shape.outputs + 1 }
    ensures answered { MatchResult result
        (λ told. IsTold function (take count values.now) (take told.1 numbers.new) told.0
        driver.old driver.new)
        (λ why. IsRefused why (out_with function (take count values.now)) driver.old driver.new) }
    ensures end { IfOk result (λ told. told.1 ≤ length numbers.new) }
{
    let end = driver.outputs_of(function) + 1;
    match call_function(driver, function, &values[..count], &mut numbers[..end]) {
        Ok(cost) => Ok((cost, end)),
        Err(why) => Err(why),
    }
}

// A call of a function with the first values, counted. Says how many numbers, its own in front, it reported.
fn call_out(
    run: &mut Run,
    driver: &mut Driver,
    function: u32,
    count: usize,
) -> Result<usize, RefusedCall>
    requires call { IsCallFor driver.old.shape
        (out_with function (take count run.old.values.items)) }
    requires within { count ≤ length run.old.values.items }
    requires room { HasRoom run.old driver.old.shape }
    requires more { run.old.done < 4294967295 }
    ensures told { MatchResult result
        (λ end. HasTold function (take count run.old.values.items) (take end run.new.numbers.items)
        driver.old driver.new run.old.totals run.new.totals)
        (λ refused. IsRefusedOn run.old.done refused
        (out_with function (take count run.old.values.items)) driver.old driver.new) }
    ensures end { IfOk result (λ end. end ≤ length run.new.numbers.items) }
    ensures still { OnErr result (run.new.totals ≡ run.old.totals) }
    ensures lines { run.new.lines ≡ run.old.lines }
    ensures done { OnOk result (run.new.done ≡ run.old.done + 1) }
    ensures room { HasRoom run.new driver.new.shape }
    ensures shape { driver.new.shape ≡ driver.old.shape }
{
    match call_with(driver, function, count, &run.values, &mut run.numbers) {
        Ok((cost, end)) => {
            run.count(cost, 0);
            Ok(end)
        }
        Err(why) => Err(RefusedCall {
            line: run.done + 1,
            why,
        }),
    }
}

// The call of a function: it is counted, and its line is printed or waits.
fn answer_out<S: Sink>(
    run: &mut Run,
    driver: &mut Driver,
    function: u32,
    count: usize,
    sink: &mut S,
) -> Result<(), ScriptFault>
    requires call { IsCallFor driver.old.shape
        (out_with function (take count run.old.values.items)) }
    requires within { count ≤ length run.old.values.items }
    requires room { HasRoom run.old driver.old.shape }
    requires more { run.old.done < 4294967295 }
    ensures answered { MatchResult result
        (λ _. GoesOn (out_with function (take count run.old.values.items))
        (inside driver.old run.old (S.bytes sink.old))
        (inside driver.new run.new (S.bytes sink.new)))
        (λ fault. StopsOn fault run.old.done (out_with function (take count run.old.values.items))
        (inside driver.old run.old (S.bytes sink.old))
        (inside driver.new run.new (S.bytes sink.new))) }
    ensures done { OnOk result (run.new.done ≡ run.old.done + 1) }
    ensures room { HasRoom run.new driver.new.shape }
    ensures shape { driver.new.shape ≡ driver.old.shape }
    ensures cause { IsErrOf result ScriptFault.Out → Rose (S.faults sink.old) (S.faults sink.new) }
    ensures calm { result ≢ Err ScriptFault.Out → S.faults sink.new ≡ S.faults sink.old }
    ensures later { S.faults sink.old ≤ S.faults sink.new }
{
    let end = match call_out(run, driver, function, count) {
        Ok(end) => end,
        Err(refused) => return Err(ScriptFault::Call(refused)),
    };
    if put_call(&mut run.lines, sink, &run.numbers[..end]).is_err() {
        return Err(ScriptFault::Out);
    }
    Ok(())
}

// An update with the first values.
fn update_with_first(driver: &mut Driver, count: usize, values: &[i64]) -> Result<Cost, DriveFault>
    requires within { count ≤ length values.now }
    requires count { count ≡ length (inputs_of driver.old.shape) }
    ensures answered { MatchResult result
        (λ cost. IsUpdated (take count values.now) cost driver.old driver.new)
        (λ why. IsRefused why (update_with (take count values.now)) driver.old driver.new) }
{
    driver.update(&values[..count])
}

// The update with the first values, counted.
fn answer_update(run: &mut Run, driver: &mut Driver, count: usize) -> Result<(), RefusedCall>
    requires call { IsCallFor driver.old.shape (update_with (take count run.old.values.items)) }
    requires within { count ≤ length run.old.values.items }
    requires room { HasRoom run.old driver.old.shape }
    requires more { run.old.done < 4294967295 }
    ensures told { MatchResult result
        (λ _. HasUpdated (take count run.old.values.items)
        driver.old driver.new run.old.totals run.new.totals)
        (λ refused. IsRefusedOn run.old.done refused (update_with (take count run.old.values.items))
        driver.old driver.new) }
    ensures still { OnErr result (run.new.totals ≡ run.old.totals) }
    ensures lines { run.new.lines ≡ run.old.lines }
    ensures done { OnOk result (run.new.done ≡ run.old.done + 1) }
    ensures room { HasRoom run.new driver.new.shape }
    ensures shape { driver.new.shape ≡ driver.old.shape }
{
    match update_with_first(driver, count, &run.values) {
        Ok(cost) => {
            run.count(cost, 1);
            Ok(())
        }
        Err(why) => Err(RefusedCall {
            line: run.done + 1,
            why,
        }),
    }
}

/// The call of a line that was read: it is made and counted, and its line, if it has one, is printed or waits.
pub(crate) fn answer<S: Sink>(
    run: &mut Run,
    driver: &mut Driver,
    read: ReadCall,
    sink: &mut S,
) -> Result<(), ScriptFault>
    requires call { IsCallFor driver.old.shape (read_as read run.old.values.items) }
    requires within { read.count ≤ length run.old.values.items }
    requires room { HasRoom run.old driver.old.shape }
    requires more { run.old.done < 4294967295 }
    ensures answered { MatchResult result
        (λ _. GoesOn (read_as read run.old.values.items)
        (inside driver.old run.old (S.bytes sink.old))
        (inside driver.new run.new (S.bytes sink.new)))
        (λ fault. StopsOn fault run.old.done (read_as read run.old.values.items)
        (inside driver.old run.old (S.bytes sink.old))
        (inside driver.new run.new (S.bytes sink.new))) }
    ensures done { OnOk result (run.new.done ≡ run.old.done + 1) }
    ensures room { HasRoom run.new driver.new.shape }
    ensures shape { driver.new.shape ≡ driver.old.shape }
    ensures cause { IsErrOf result ScriptFault.Out → Rose (S.faults sink.old) (S.faults sink.new) }
    ensures calm { result ≢ Err ScriptFault.Out → S.faults sink.new ≡ S.faults sink.old }
    ensures later { S.faults sink.old ≤ S.faults sink.new }
{
    match read.line {
        ScriptLine::Out { function } => answer_out(run, driver, function, read.count, sink),
        ScriptLine::Update => match answer_update(run, driver, read.count) {
            Ok(()) => Ok(()),
            Err(refused) => Err(ScriptFault::Call(refused)),
        },
    }
}
