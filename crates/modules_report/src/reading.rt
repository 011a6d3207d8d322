ghost use Rattle.std.specs.Prelude.{◌≡◌, ◌≤◌, ◌<◌, ◌^◌, ◌++◌, ◌+◌, ℕ, List, All, IfErr, IfNone, IfOk, IfSome, [], flat_map, length, map};
ghost use Rattle.modules_profile.specs.declared.Function.{Function};
ghost use Rattle.modules_report.specs.Following.{AreAllFunctions, CanComeFirst};
ghost use Rattle.modules_report.specs.Guesses.{IsLeft};
ghost use Rattle.modules_report.specs.Heads.{IsPossible, head_ports, head_text};
ghost use Rattle.modules_report.specs.Reading.{HasRow, IsFormFault, IsSystemReport, IsTextOf};
ghost use Rattle.modules_report.specs.Reports.{IsSetOf};
ghost use Rattle.modules_report.specs.Stops.{IsOnlyFunction, OfForm, OfLeft, StopsAtDifference, StopsAtFunction, StopsAtHead, StopsAtLine, StopsIn, StopsInSystem};
ghost use Rattle.modules_report.specs.Texts.{differ_line, last_line, out_line, out_lines, report_text, system_text};

use crate::cutting::{first_words, line_behind, past};
use crate::fault::ReportFault;
use crate::following::needs_of;
use crate::head::Head;
use crate::lines::{push_differ_line, push_head_line, push_out_line};
use crate::parsing::{function_in, head_in};
use crate::printing::{all_ports, push_last_line};
use crate::report::SystemReport;
use crate::stop::Stop;
use base_core::Port;
use modules_certificate::{Difference, make};
use modules_profile::{Function, Profile};
use std::alloc::Global;

/// The one list of reports that has this text.
///
/// Form where no list of reports has it; the line is the first one that can't follow the lines before it in any such
/// text, and the one after the last where the text only ends too soon. The other error is out of memory.
pub fn read_report(alloc: Global, bytes: &[u8]) -> Result<Vec<SystemReport>, ReportFault>
    ensures text { IfOk result (λ reports. IsTextOf bytes.now reports.items) }
    ensures form { IfErr result (λ fault. OfForm fault (IsFormFault bytes.now)) }
{
    match read_systems(alloc, bytes) {
        Ok(reports) => Ok(reports),
        Err(Stop::Left(left)) => {
            let before = bytes.len().saturating_sub(left);
            Err(ReportFault::Form {
                line: line_behind(&bytes[..before]),
            })
        }
        Err(Stop::Memory) => Err(ReportFault::Memory),
    }
}

// The reports whose text this is.
#[tactic(auto, using(crate::proofs::ReadSystems::read_whole, crate::proofs::ReadSystems::systems_on))]
fn read_systems(alloc: Global, bytes: &[u8]) -> Result<Vec<SystemReport>, Stop>
    ensures text { IfOk result (λ reports. IsTextOf bytes.now reports.items) }
    ensures stops { IfErr result (λ stop. OfLeft stop (StopsIn bytes.now)) }
{
    let mut rest = bytes;
    let mut reports = Vec::new(alloc);
    for _ in 0..bytes.len() {
        if let Some(end) = past_last_line(alloc, rest, reports.len())? {
            if end.is_empty() {
                return Ok(reports);
            }
            return Err(Stop::Left(end.len()));
        }
        let (report, next) = read_system(alloc, rest)?;
        reports.push(report)?;
        rest = next;
    }
    Err(Stop::Left(rest.len()))
}

// What follows the line that ends a text with so many systems, if it is here.
fn past_last_line(alloc: Global, text: &[u8], systems: usize) -> Result<Option<&[u8]>, Stop>
    ensures text { IfOk result (λ end. IfSome end (λ next. text.now ≡ last_line systems ++ next.now)) }
    ensures none { IfOk result (λ end. IfNone end ((more : List ℕ) → text.now ≡ last_line systems ++ more →
        ⊥)) }
    ensures memory { IfErr result (λ stop. IsLeft stop → ⊥) }
{
    let mut line = String::new(alloc);
    push_last_line(&mut line, systems)?;
    Ok(past(text, line.as_bytes()))
}

// The report on the system whose lines are here, and what follows them.
fn read_system(alloc: Global, text: &[u8]) -> Result<(SystemReport, &[u8]), Stop>
    ensures text { IfOk result (λ read. text.now ≡ system_text read.0 ++ read.1.now) }
    ensures report { IfOk result (λ read. IsSystemReport read.0) }
    ensures stops { IfErr result (λ stop. OfLeft stop (StopsInSystem text.now)) }
{
    let (head, rest) = read_head(alloc, text)?;
    let controls = head.controls(alloc)?;
    let ports = all_ports(alloc, head.inputs, &controls)?;
    let (functions, rest) = read_functions(alloc, rest, &ports, head)?;
    let needs = needs_of(alloc, head.outputs, &functions)?;
    let certificate = make(alloc, &needs)?;
    let rest = read_differences(alloc, rest, &ports, &certificate.differ)?;
    let report = SystemReport {
        row: head.row,
        inputs: head.inputs,
        controls,
        outputs: head.outputs,
        profile: Profile {
            row: head.row,
            functions,
        },
        certificate,
    };
    Ok((report, rest))
}

// What the line of a system that is here says, and what follows it.
fn read_head(alloc: Global, text: &[u8]) -> Result<(Head, &[u8]), Stop>
    ensures text { IfOk result (λ read. text.now ≡ head_text read.0 ++ read.1.now) }
    ensures row { IfOk result (λ read. HasRow read.0.row) }
    ensures head { IfOk result (λ read. IsPossible read.0) }
    ensures stops { IfErr result (λ stop. OfLeft stop (StopsAtHead text.now)) }
{
    let words = first_words(alloc, text)?;
    let Some(head) = head_in(&words) else {
        return Err(Stop::Left(text.len()));
    };
    if !head.is_possible(alloc)? {
        return Err(Stop::Left(text.len()));
    }
    match past(text, head.line(alloc)?.as_bytes()) {
        Some(rest) => Ok((head, rest)),
        None => Err(Stop::Left(text.len())),
    }
}

// The functions whose lines are here, and what follows them.
fn read_functions<'a>(
    alloc: Global,
    text: &'a [u8],
    ports: &[Port],
    head: Head,
) -> Result<(Vec<Function>, &'a [u8]), Stop>
    requires outputs { head.outputs ≤ 32 }
    requires inputs { head.inputs ≤ 32 }
    requires none { CanComeFirst head.outputs head.functions [] }
    requires ports { ports.now ≡ head_ports head }
    ensures text { IfOk result (λ read.
        text.now ≡ out_lines ports.now head.outputs 1 read.0.items ++ read.1.now) }
    ensures sets { IfOk result
        (λ read. All (λ (f : Function). IsSetOf (head_ports head) f.inputs) read.0.items) }
    ensures functions { IfOk result (λ read. AreAllFunctions head.outputs head.functions read.0.items) }
    ensures stops { IfErr result (λ stop. OfLeft stop (StopsAtFunction head text.now)) }
{
    let mut rest = text;
    let mut functions = Vec::new(alloc);
    for k in 0..head.functions as usize {
        let (function, next) = read_function(alloc, rest, ports, head, k + 1)?;
        functions.push(function)?;
        if !head.can_have(alloc, function.inputs, &functions)? {
            return Err(Stop::Left(rest.len()));
        }
        rest = next;
    }
    Ok((functions, rest))
}

// The function whose line is here, and what follows it.
fn read_function<'a>(
    alloc: Global,
    text: &'a [u8],
    ports: &[Port],
    head: Head,
    j: usize,
) -> Result<(Function, &'a [u8]), Stop>
    requires outputs { head.outputs ≤ 32 }
    requires inputs { head.inputs ≤ 32 }
    requires ports { ports.now ≡ head_ports head }
    ensures text { IfOk result (λ read. text.now ≡ out_line ports.now head.outputs j read.0 ++ read.1.now) }
    ensures only { IfOk result (λ read. IsOnlyFunction ports.now head.outputs j text.now read.0) }
    ensures stops { IfErr result (λ stop. OfLeft stop (StopsAtLine ports.now head.outputs j text.now)) }
{
    let words = first_words(alloc, text)?;
    let Some(function) = function_in(&words) else {
        return Err(Stop::Left(text.len()));
    };
    let mut line = String::new(alloc);
    push_out_line(&mut line, ports, head.outputs, j, &function)?;
    match past(text, line.as_bytes()) {
        Some(rest) => Ok((function, rest)),
        None => Err(Stop::Left(text.len())),
    }
}

// What follows the lines of differences.
#[tactic(auto, using(crate::proofs::FunctionLines::lines_on))]
fn read_differences<'a>(
    alloc: Global,
    text: &'a [u8],
    ports: &[Port],
    differ: &[Difference],
) -> Result<&'a [u8], Stop>
    ensures text { IfOk result (λ next. text.now ≡ flat_map (differ_line ports.now) differ.now ++ next.now) }
    ensures stops { IfErr result (λ stop. OfLeft stop (StopsAtDifference ports.now differ.now text.now)) }
{
    let mut rest = text;
    for d in differ {
        let mut line = String::new(alloc);
        push_differ_line(&mut line, ports, d)?;
        match past(rest, line.as_bytes()) {
            Some(next) => rest = next,
            None => return Err(Stop::Left(rest.len())),
        }
    }
    Ok(rest)
}
