ghost use Rattle.std.specs.Prelude.{◌≡◌, ◌<◌, ◌≤◌, ◌==◌, All, IfOk, length, map, unwrap_or};
ghost use Rattle.std.specs.List.{position_from, range_with_len};
ghost use Rattle.base_core.specs.Ports.{has_bit};
ghost use Rattle.emit_system_spec.specs.Schedules.{giving_function as function_giving};

use base_core::Memory;
use modules_profile::{Function, Profile};
use std::alloc::Global;

/// Whether a function gives the output at a place.
fn gives(function: &Function, output: u32) -> bool
    requires { output < 32 }
    ensures { result ≡ has_bit function.now.outputs output }
{
    function.outputs & (1 << output) != 0
}

/// The first of some functions that gives the output at a place.
fn first_giving(functions: &[Function], output: u32) -> Option<usize>
    requires { output < 32 }
    ensures { result ≡ position_from (λ f. has_bit f.outputs output) 0 functions.now }
{
    functions
        .iter()
        .position(|function| gives(function, output))
}

/// The function, from 0, that gives the output at a place.
fn giving_function(profile: &Profile, output: u32) -> u32
    requires output { output < 32 }
    requires few { length profile.now.functions ≤ 32 }
    ensures is { result ≡ function_giving profile.now output }
    ensures few { result < 32 }
{
    first_giving(profile.functions.as_slice(), output).unwrap_or(0) as u32
}

/// The function that gives each of so many outputs, by port.
pub(crate) fn giving_functions(
    alloc: Global,
    profile: &Profile,
    outputs: usize,
) -> Result<Vec<u32>, Memory>
    requires outputs { outputs ≤ 32 }
    requires few { length profile.now.functions ≤ 32 }
    ensures is { IfOk result (λ v. v.items
        ≡ map (function_giving profile.now) (range_with_len 0 outputs)) }
    ensures few { IfOk result (λ v. All (λ j. j < 32) v.items) }
{
    let mut given = Vec::new(alloc);
    for output in 0..outputs {
        given.push(giving_function(profile, output as u32))?;
    }
    Ok(given)
}
