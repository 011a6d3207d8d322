ghost use Rattle.std.specs.Prelude.{◌≡◌, ◌≤◌, ◌++◌, All, IfOk, OnOk, flat_map};
ghost use Rattle.std.specs.List.{enumerate_from};
ghost use Rattle.std.specs.String.{string_bytes};
ghost use Rattle.modules_report.specs.Reports.{IsReport};
ghost use Rattle.modules_report.specs.Texts.{differ_line, last_line, out_line, ports_with, report_text, system_line, system_text};

use crate::lines::{push_differ_line, push_head_line, push_out_line};
use crate::report::SystemReport;
use base_core::{Memory, Port};
use modules_certificate::Difference;
use modules_profile::Function;
use std::alloc::Global;
use std::fmt::Write;

/// The text of reports, each right for some needs of its outputs: system by system, and then how many there are.
///
/// The only error is out of memory.
pub fn print_report(alloc: Global, r: &[SystemReport]) -> Result<Vec<u8>, Memory>
    requires { All IsReport r.now }
    ensures { IfOk result (λ text. text.items ≡ report_text r.now) }
{
    let mut out = String::new(alloc);
    for report in r {
        push_system(alloc, &mut out, report)?;
    }
    push_last_line(&mut out, r.len())?;
    Ok(out.into_bytes())
}

/// Appends the line that says how many systems there are.
pub(crate) fn push_last_line(out: &mut String, systems: usize) -> Result<(), Memory>
    ensures { OnOk result (string_bytes out.new ≡ string_bytes out.old ++ last_line systems) }
{
    write!(out, "systems {systems}\n")?;
    Ok(())
}

// Appends the lines of a system.
#[tactic(auto, unfolding(crate::specs::Texts::system_text))]
fn push_system(alloc: Global, out: &mut String, report: &SystemReport) -> Result<(), Memory>
    requires inputs { report.now.inputs ≤ 32 }
    requires outputs { report.now.outputs ≤ 32 }
    ensures { OnOk result (string_bytes out.new ≡ string_bytes out.old ++ system_text report.now) }
{
    let ports = all_ports(alloc, report.inputs, &report.controls)?;
    push_system_line(out, report)?;
    push_functions(out, &ports, report.outputs, &report.profile.functions)?;
    push_differences(out, &ports, &report.certificate.differ)?;
    Ok(())
}

// Appends the line of a system.
fn push_system_line(out: &mut String, report: &SystemReport) -> Result<(), Memory>
    ensures { OnOk result (string_bytes out.new ≡ string_bytes out.old ++ system_line report.now) }
{
    push_head_line(
        out,
        report.row,
        report.inputs,
        report.outputs,
        report.profile.functions.len(),
        &report.controls,
    )
}

/// The inputs of a system: by number, and then its controls.
pub(crate) fn all_ports(alloc: Global, inputs: u32, controls: &[Port]) -> Result<Vec<Port>, Memory>
    requires { inputs ≤ 32 }
    ensures { IfOk result (λ ports. ports.items ≡ ports_with inputs controls.now) }
{
    let mut ports = Vec::new(alloc);
    for k in 1..inputs + 1 {
        ports.push(Port::Number(k))?;
    }
    ports.extend_from_slice(controls)?;
    Ok(ports)
}

// Appends the lines of the functions.
fn push_functions(
    out: &mut String,
    ports: &[Port],
    outputs: u32,
    functions: &[Function],
) -> Result<(), Memory>
    requires { outputs ≤ 32 }
    ensures { OnOk result (string_bytes out.new ≡ string_bytes out.old
        ++ flat_map (λ f. out_line ports.now outputs f.0 f.1) (enumerate_from 1 functions.now)) }
{
    for (k, function) in functions.iter().enumerate() {
        push_out_line(out, ports, outputs, k + 1, function)?;
    }
    Ok(())
}

// Appends the lines of each two functions.
fn push_differences(out: &mut String, ports: &[Port], differ: &[Difference]) -> Result<(), Memory>
    ensures { OnOk result (string_bytes out.new
        ≡ string_bytes out.old ++ flat_map (differ_line ports.now) differ.now) }
{
    for d in differ {
        push_differ_line(out, ports, d)?;
    }
    Ok(())
}
