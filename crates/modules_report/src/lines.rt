ghost use Rattle.std.specs.Prelude.{◌≡◌, ◌≤◌, ◌++◌, [], if◌then◌else◌, OnOk, codes, map};
ghost use Rattle.std.specs.String.{string_bytes};
ghost use Rattle.base_core.specs.Words.{port_word};
ghost use Rattle.base_core.specs.Ports as ports;
ghost use Rattle.base_core.specs.Ports.{has_bit};
ghost use Rattle.modules_profile.specs.Systems.{system_name};
ghost use Rattle.modules_report.specs.Texts.{control_words, counts_text, differ_line, head_line, out_line, outputs_text, ports_at, ports_text, spaced};

use base_core::{Memory, Port};
use modules_certificate::Difference;
use modules_profile::Function;
use std::fmt::Write;

/// Appends the line that says how many inputs, outputs and functions a system has, and its controls.
pub(crate) fn push_head_line(
    out: &mut String,
    row: Option<u32>,
    inputs: u32,
    outputs: u32,
    functions: usize,
    controls: &[Port],
) -> Result<(), Memory>
    ensures { OnOk result (string_bytes out.new
        ≡ string_bytes out.old ++ head_line row inputs outputs functions controls.now) }
{
    out.push_str("system ")?;
    push_system_name(out, row)?;
    push_counts(out, inputs, outputs, functions)?;
    push_controls(out, controls)?;
    out.push_str("\n")?;
    Ok(())
}

#[tactic(auto, unfolding(crate::specs::Texts::counts_text))]
fn push_counts(out: &mut String, inputs: u32, outputs: u32, functions: usize) -> Result<(), Memory>
    ensures { OnOk result (string_bytes out.new
        ≡ string_bytes out.old ++ counts_text inputs outputs functions) }
{
    write!(
        out,
        " inputs {inputs} outputs {outputs} functions {functions}"
    )?;
    Ok(())
}

fn push_system_name(out: &mut String, row: Option<u32>) -> Result<(), Memory>
    ensures { OnOk result (string_bytes out.new ≡ string_bytes out.old ++ system_name row) }
{
    match row {
        Some(row) => write!(out, "s{row}")?,
        None => out.push_str("top")?,
    }
    Ok(())
}

fn push_controls(out: &mut String, controls: &[Port]) -> Result<(), Memory>
    ensures { OnOk result (string_bytes out.new
        ≡ string_bytes out.old ++ spaced (control_words controls.now)) }
{
    if controls.is_empty() {
        return Ok(());
    }
    out.push_str(" control")?;
    push_all(out, controls)
}

// Appends ports, each after a space.
fn push_all(out: &mut String, ports: &[Port]) -> Result<(), Memory>
    ensures { OnOk result (string_bytes out.new
        ≡ string_bytes out.old ++ spaced (map port_word ports.now)) }
{
    for port in ports {
        write!(out, " {port}")?;
    }
    Ok(())
}

/// Appends the line of function `j`: the inputs that it takes, and the outputs that it gives.
pub(crate) fn push_out_line(
    out: &mut String,
    ports: &[Port],
    outputs: u32,
    j: usize,
    function: &Function,
) -> Result<(), Memory>
    requires { outputs ≤ 32 }
    ensures { OnOk result (string_bytes out.new
        ≡ string_bytes out.old ++ out_line ports.now outputs j function.now) }
{
    write!(out, "out {j} needs")?;
    push_ports(out, ports, function.inputs)?;
    out.push_str(" outputs")?;
    push_outputs(out, outputs, function.outputs)?;
    out.push_str("\n")?;
    Ok(())
}

// Appends those of the ports that are in a set, each after a space, or that there are none.
fn push_ports(out: &mut String, ports: &[Port], mask: u64) -> Result<(), Memory>
    ensures { OnOk result (string_bytes out.new
        ≡ string_bytes out.old ++ ports_text ports.now mask) }
{
    let mut any = false;
    for port in ports {
        if has_port(mask, *port) {
            write!(out, " {port}")?;
            any = true;
        }
    }
    push_none(out, any)
}

// Appends the numbers of those of the outputs that are in a set, each after a space, or that there are none.
fn push_outputs(out: &mut String, outputs: u32, mask: u32) -> Result<(), Memory>
    requires { outputs ≤ 32 }
    ensures { OnOk result (string_bytes out.new
        ≡ string_bytes out.old ++ outputs_text outputs mask) }
{
    let mut any = false;
    for k in 1..outputs + 1 {
        if has(u64::from(mask), k - 1) {
            write!(out, " {k}")?;
            any = true;
        }
    }
    push_none(out, any)
}

// Appends that a list is empty, where nothing was in it.
fn push_none(out: &mut String, any: bool) -> Result<(), Memory>
    ensures { OnOk result (string_bytes out.new
        ≡ string_bytes out.old ++ (if any then [] else codes " none")) }
{
    if !any {
        out.push_str(" none")?;
    }
    Ok(())
}

/// Appends the line of two functions: the least input that just one of them takes.
pub(crate) fn push_differ_line(
    out: &mut String,
    ports: &[Port],
    d: &Difference,
) -> Result<(), Memory>
    ensures { OnOk result (string_bytes out.new
        ≡ string_bytes out.old ++ differ_line ports.now d.now) }
{
    write!(
        out,
        "differ {} {} by",
        u32::from(d.first) + 1,
        u32::from(d.second) + 1
    )?;
    push_ports_at(out, ports, u32::from(d.bit))?;
    out.push_str("\n")?;
    Ok(())
}

// Appends the port at a bit of a set after a space.
fn push_ports_at(out: &mut String, ports: &[Port], bit: u32) -> Result<(), Memory>
    ensures { OnOk result (string_bytes out.new
        ≡ string_bytes out.old ++ spaced (map port_word (ports_at bit ports.now))) }
{
    for port in ports {
        if port.bit() == bit {
            write!(out, " {port}")?;
        }
    }
    Ok(())
}

// Whether a port is in a set.
fn has_port(mask: u64, port: Port) -> bool
    ensures { result ≡ has_bit mask (ports.bit_of port) }
{
    has(mask, port.bit())
}

/// Whether a bit is in a set.
pub(crate) fn has(mask: u64, bit: u32) -> bool
    ensures { result ≡ has_bit mask bit }
{
    bit < 64 && mask & (1 << bit) != 0
}
