ghost use Rattle.std.specs.Prelude.{◌≤◌, length};

use modules_profile::{Function, functions_of};
use std::alloc::Global;
use std::test::Fail;

const fn function(inputs: u64, outputs: u32) -> Function {
    Function { inputs, outputs }
}

/// Fails where the functions of a system whose outputs have these needs are others.
fn are_functions(alloc: Global, needs: &[u64], expected: &[Function]) -> Result<(), Fail>
    requires { length needs.now ≤ 32 }
{
    let functions = functions_of(alloc, needs)?;
    if functions.as_slice() == expected {
        return Ok(());
    }
    Err(Fail::new(format_args!("{functions:?} are given for {needs:?}, not {expected:?}")))
}

#[test]
fn functions_of_outputs(rt: HostRuntime) -> Result<(), Fail> {
    // each output needs an input of its own
    let crossed = [function(1, 1), function(2, 2)];
    are_functions(rt.alloc(), &[1, 2], &crossed)?;
    // two outputs need the input, and one after a delay needs none
    let delayed = [function(1, 3), function(0, 4)];
    are_functions(rt.alloc(), &[1, 1, 0], &delayed)?;
    // an enable and a trigger besides the input
    let needs = (3 << 32) + 1;
    are_functions(rt.alloc(), &[needs], &[function(12_884_901_889, 1)])
}

#[test]
fn thirty_two_needs(rt: HostRuntime) -> Result<(), Fail> {
    let mut needs = [0; 32];
    for k in 0..32 {
        needs[k] = 1 << k;
    }
    let functions = functions_of(rt.alloc(), &needs)?;
    let last = function(2_147_483_648, 2_147_483_648);
    assert_eq!(rt; (functions.len(), functions.last()), (32, Some(&last)));
    Ok(())
}
