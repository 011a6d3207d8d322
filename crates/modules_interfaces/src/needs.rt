ghost use Rattle.std.specs.Prelude.{◌≡◌, ◌<◌, ◌≤◌, IfOk, length, map};
ghost use Rattle.std.specs.List.{range_with_len};
ghost use Rattle.base_core.specs.Ports.{has_bit};
ghost use Rattle.modules_interfaces.specs.Needs.{need_of as need_from};

use base_core::Memory;
use modules_profile::Function;
use std::alloc::Global;

/// Whether a function gives the output at a place.
fn gives(function: &Function, output: u32) -> bool
    requires { output < 32 }
    ensures { result ≡ has_bit function.now.outputs output }
{
    function.outputs & (1 << output) != 0
}

/// The inputs that the output at a place needs: those of the first function that gives it.
fn need_of(functions: &[Function], output: u32) -> u64
    requires { output < 32 }
    ensures { result ≡ need_from functions.now output }
{
    match functions {
        [] => 0,
        [f, more @ ..] => {
            if gives(f, output) {
                f.inputs
            } else {
                need_of(more, output)
            }
        }
    }
}

/// The inputs that each of so many outputs needs.
///
/// Fails only when memory runs out.
pub(crate) fn needs_of(
    alloc: Global,
    outputs: u32,
    functions: &[Function],
) -> Result<Vec<u64>, Memory>
    requires { outputs ≤ 32 }
    ensures needs { IfOk result (λ needs. needs.items
        ≡ map (need_from functions.now) (range_with_len 0 outputs)) }
    ensures len { IfOk result (λ needs. length needs.items ≡ outputs) }
{
    let mut needs = Vec::new(alloc);
    for k in 0..outputs {
        needs.push(need_of(functions, k))?;
    }
    Ok(needs)
}
