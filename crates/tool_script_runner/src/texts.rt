// The lines that say what a script is stopped by.
ghost use Rattle.std.specs.Prelude.{◌≡◌, ◌++◌, ◌∷◌, ◌<◌, IfOk, OnOk, string_bytes, codes, decimal, flat_map, map};
ghost use Rattle.base_core.specs.Ports.{has_bit};
ghost use Rattle.tool_script_runner.specs.FaultTexts as text;

use crate::outcome::RefusedCall;
use base_core::Memory;
use std::alloc::Global;
use std::fmt::Write;
use tool_driver::DriveFault;
use tool_scripts::{BadCall, ScriptWhy};

/// The line for a line of a script that is no call: its number from 1 and why, with the number that is no function's or how
/// many values there are.
///
/// # Errors
///
/// Only where memory runs out.
pub fn bad_call_line(alloc: Global, bad: BadCall) -> Result<String, Memory>
    ensures { IfOk result (λ line. string_bytes line ≡ text.bad_call_line bad) }
{
    let line = bad.line;
    match bad.why {
        ScriptWhy::Long => Ok(format!(in alloc; "script line {line} Long\n")?),
        ScriptWhy::Many => Ok(format!(in alloc; "script line {line} Many\n")?),
        ScriptWhy::Form => Ok(format!(in alloc; "script line {line} Form\n")?),
        ScriptWhy::NoFunction(number) => {
            Ok(format!(in alloc; "script line {line} NoFunction {number}\n")?)
        }
        ScriptWhy::Count(found) => Ok(format!(in alloc; "script line {line} Count {found}\n")?),
    }
}

/// The line for a line of a script whose call the driver refused: its number from 1 and why, with the number of the function
/// that was called twice, those of all functions that weren't called before an update, or the input and its values. A machine
/// that is stuck, which never comes in right code, is reported by that word alone.
///
/// # Errors
///
/// Only where memory runs out.
pub fn refused_call_line(alloc: Global, refused: RefusedCall) -> Result<String, Memory>
    ensures { IfOk result (λ line. string_bytes line ≡ text.refused_call_line refused) }
{
    let line = refused.line;
    match refused.why {
        DriveFault::Twice { function } => {
            Ok(format!(in alloc; "script line {line} Twice {function}\n")?)
        }
        DriveFault::Early { missing } => early_line(alloc, line, missing),
        DriveFault::Value { input } => Ok(format!(in alloc; "script line {line} Value {input}\n")?),
        DriveFault::Unlike {
            input,
            first,
            second,
        } => Ok(format!(in alloc; "script line {line} Unlike {input} {first} {second}\n")?),
        DriveFault::Stuck(_) => Ok(format!(in alloc; "script line {line} Stuck\n")?),
    }
}

// The line for an update before which the functions in a mask weren't called.
fn early_line(alloc: Global, line: u32, missing: u64) -> Result<String, Memory>
    ensures { IfOk result (λ told. string_bytes told
        ≡ text.script_line line (codes "Early" ∷ map decimal (text.functions_in missing))) }
{
    let mut told = format!(in alloc; "script line {line} Early")?;
    push_functions(&mut told, missing)?;
    told.push_str("\n")?;
    Ok(told)
}

// Appends the numbers of the functions in a mask, each after a space.
fn push_functions(out: &mut String, mask: u64) -> Result<(), Memory>
    ensures { OnOk result (string_bytes out.new
        ≡ string_bytes out.old ++ flat_map (λ j. 32 ∷ decimal j) (text.functions_in mask)) }
{
    for j in 1..65 {
        if has(mask, j - 1) {
            write!(out, " {j}")?;
        }
    }
    Ok(())
}

// Whether a bit is in a mask.
fn has(mask: u64, bit: u32) -> bool
    requires { bit < 64 }
    ensures { result ≡ has_bit mask bit }
{
    mask & (1 << bit) != 0
}
