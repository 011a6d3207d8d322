// The calls of a script's file through the driver.
ghost use Rattle.std.specs.Prelude.{◌≡◌, ◌≢◌, ◌≤◌, [], false, Err, OnOk, IsErrOf};
ghost use Rattle.std.specs.Io.KnownBytes.{IsAtEnd};
ghost use Rattle.base_host.specs.Faults.{Rose};
ghost use Rattle.base_host.specs.Reading.{source};
ghost use Rattle.tool_runner.specs.Runs.{no_totals};
ghost use Rattle.tool_driver.specs.Driven.{Driven, StandsFor};
ghost use Rattle.tool_script_runner.specs.Standings.{standing};
ghost use Rattle.tool_script_runner.specs.Runs.{RunsOver};
ghost use Rattle.tool_script_runner.specs.Right.{IsRightRun};
ghost use Rattle.tool_script_runner.specs.Walks.{AreCounts, HasRoom};

use crate::laws::answers_are_right;
use crate::lines::{run_last, run_lines};
use crate::outcome::ScriptFault;
use crate::run::Run;
use base_host::{Host, ReadBuffer, Sink};
use std::alloc::Global;
use tool_driver::Driver;
use tool_runner::Totals;

// The file in pieces: the whole lines of each piece, with what was left of the piece before it, and the last line at the end.
fn run_pieces<H: Host, S: Sink>(
    run: &mut Run,
    read: &mut ReadBuffer,
    driver: &mut Driver,
    counts: &[u32],
    host: &mut H,
    sink: &mut S,
) -> Result<(), ScriptFault>
    requires counts { AreCounts counts.now driver.old.shape }
    requires room { HasRoom run.old driver.old.shape }
    requires start { run.old.done ≡ 0 }
    requires empty { run.old.lines ≡ [] }
    requires unread { read.old.bytes ≡ [] }
    ensures ran { RunsOver result (source (H.rest host.old) (H.given host.old))
        (source (H.rest host.new) (H.given host.new))
        (standing driver.old run.old.totals (S.bytes sink.old))
        (standing driver.new run.new.totals (S.bytes sink.new)) }
    ensures end { OnOk result (IsAtEnd (H.rest host.new)) }

    ensures read_cause { IsErrOf result ScriptFault.Read
        → Rose (H.read_faults host.old) (H.read_faults host.new) }
    ensures unsure { IsErrOf result ScriptFault.Read → H.sure_rest host.old ≡ false }
    ensures read_calm { result ≢ Err ScriptFault.Read
        → H.read_faults host.new ≡ H.read_faults host.old }
    ensures read_later { H.read_faults host.old ≤ H.read_faults host.new }

    ensures out_cause { IsErrOf result ScriptFault.Out
        → Rose (S.faults sink.old) (S.faults sink.new) }
    ensures out_calm { result ≢ Err ScriptFault.Out → S.faults sink.new ≡ S.faults sink.old }
    ensures out_later { S.faults sink.old ≤ S.faults sink.new }

    ensures files { H.files host.new ≡ H.files host.old }
    ensures written { H.written host.new ≡ H.written host.old }
    ensures write_faults { H.write_faults host.new ≡ H.write_faults host.old }
{
    loop {
        let Ok(count) = read.fill(host) else {
            return Err(ScriptFault::Read);
        };
        if count == 0 {
            return run_last(run, driver, counts, read.bytes(), sink);
        }
        let done = run_lines(run, driver, counts, read.bytes(), sink)?;
        read.take(done);
    }
}

/// Makes the calls of the open file's lines through the driver, each once and in order, and prints a line for each `out`: that
/// word, the function's number and the outputs that it gives by port, in decimal, with a space between each two. `update` prints
/// nothing, and the script may end within a tick.
///
/// The file is read piece by piece: the memory that is taken doesn't grow with it. All lines of the calls that were read are
/// printed before the file is read on. The totals count the updates as ticks, and the steps and calls that the driver's calls took.
///
/// # Errors
///
/// `Line` exactly at the first line that is no call by itself, and `Call` exactly at the first line before it whose call the
/// driver refuses, by its number from 1; `Read` only where the host counted an error: then the lines of all whole lines among the
/// bytes that were read stay; `Out` only where the sink counted an error, with a front of the lines; and `Memory` where memory ran
/// out, before anything was read, called or printed. The lines of the calls before an error stay, and driver and totals are as
/// the calls left them.
pub fn run_script<H: Host, S: Sink>(
    alloc: Global,
    driver: &mut Driver,
    host: &mut H,
    sink: &mut S,
    totals: &mut Totals,
) -> Result<(), ScriptFault>
    requires start { totals.old ≡ no_totals }
    ensures ran { RunsOver result (source (H.rest host.old) (H.given host.old))
        (source (H.rest host.new) (H.given host.new))
        (standing driver.old totals.old (S.bytes sink.old))
        (standing driver.new totals.new (S.bytes sink.new)) }
    ensures end { OnOk result (IsAtEnd (H.rest host.new)) }
    ensures untouched { IsErrOf result ScriptFault.Memory → H.rest host.new ≡ H.rest host.old }
    ensures right { (w : Driven) → StandsFor w driver.old [] → IsRightRun w result
        driver.old driver.new }

    ensures read_cause { IsErrOf result ScriptFault.Read
        → Rose (H.read_faults host.old) (H.read_faults host.new) }
    ensures unsure { IsErrOf result ScriptFault.Read → H.sure_rest host.old ≡ false }
    ensures read_calm { result ≢ Err ScriptFault.Read
        → H.read_faults host.new ≡ H.read_faults host.old }
    ensures read_later { H.read_faults host.old ≤ H.read_faults host.new }

    ensures out_cause { IsErrOf result ScriptFault.Out
        → Rose (S.faults sink.old) (S.faults sink.new) }
    ensures out_calm { result ≢ Err ScriptFault.Out → S.faults sink.new ≡ S.faults sink.old }
    ensures out_later { S.faults sink.old ≤ S.faults sink.new }

    ensures files { H.files host.new ≡ H.files host.old }
    ensures written { H.written host.new ≡ H.written host.old }
    ensures write_faults { H.write_faults host.new ≡ H.write_faults host.old }
{
    answers_are_right();
    let (Ok(counts), Ok(mut read), Ok(mut run)) = (
        driver.input_counts(alloc),
        ReadBuffer::new(alloc),
        Run::new(alloc, driver.all_inputs(), driver.all_outputs()),
    ) else {
        return Err(ScriptFault::Memory);
    };
    let ran = run_pieces(&mut run, &mut read, driver, &counts, host, sink);
    *totals = run.totals;
    ran
}
