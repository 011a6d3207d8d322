ghost use Rattle.std.specs.Prelude.{◌≡◌, ◌≤◌, ◌++◌, All, IfOk, length, map};
ghost use Rattle.std.specs.List.{range_with_len};
ghost use Rattle.base_core.specs.declared.Port.TheVariants.{Number};
ghost use Rattle.modules_profile.specs.Functions.{functions_for};
ghost use Rattle.base_core.specs.Ports.{ports_in, ports_mask, AreControls};
ghost use Rattle.modules_report.specs.Reports.{IsReport};

mod reading;

use super::is_told;
use base_core::{Memory, Port};
use modules_certificate::make;
use modules_profile::{Function, Profile};
use modules_report::{SystemReport, print_report};
use std::alloc::Global;
use std::test::Fail;

// The report on a system whose outputs have these needs, and so these functions.
fn report(
    alloc: Global,
    row: Option<u32>,
    inputs: u32,
    controls: &[Port],
    needs: &[u64],
    functions: &[Function],
) -> Result<SystemReport, Memory>
    requires inputs { inputs ≤ 32 }
    requires controls { AreControls controls.now }
    requires few { length needs.now ≤ 32 }
    requires in_inputs { All (λ mask.
        ports_mask (ports_in mask (map Number (range_with_len 1 inputs) ++ controls.now))
        ≡ mask) needs.now }
    requires functions { functions.now ≡ functions_for needs.now }
    ensures { IfOk result (λ r. IsReport r) }
{
    let controls = controls.to_vec(alloc)?;
    let functions = functions.to_vec(alloc)?;
    let certificate = make(alloc, needs)?;
    Ok(SystemReport {
        row,
        inputs,
        controls,
        outputs: needs.len() as u32,
        profile: Profile { row, functions },
        certificate,
    })
}

// The printed report on one such system.
fn printed(
    alloc: Global,
    row: Option<u32>,
    controls: &[Port],
    needs: &[u64],
    functions: &[Function],
) -> Result<Vec<u8>, Fail>
    requires controls { AreControls controls.now }
    requires few { length needs.now ≤ 32 }
    requires in_inputs { All (λ mask.
        ports_mask (ports_in mask (map Number (range_with_len 1 1) ++ controls.now))
        ≡ mask) needs.now }
    requires functions { functions.now ≡ functions_for needs.now }
{
    let of_system = report(alloc, row, 1, controls, needs, functions)?;
    Ok(print_report(alloc, &[of_system])?)
}

#[test]
fn systems_of_one_input(rt: HostRuntime) -> Result<(), Fail> {
    let delayed = [Function {
        inputs: 0,
        outputs: 1,
    }];
    let told = printed(rt.alloc(), None, &[], &[0], &delayed)?;
    is_told(
        &told,
        "system top inputs 1 outputs 1 functions 1\nout 1 needs none outputs 1\nsystems 1\n",
        "a delay",
    )?;
    let classes = [
        Function {
            inputs: 1,
            outputs: 3,
        },
        Function {
            inputs: 0,
            outputs: 4,
        },
    ];
    let told = printed(rt.alloc(), None, &[], &[1, 1, 0], &classes)?;
    is_told(
        &told,
        "system top inputs 1 outputs 3 functions 2\nout 1 needs 1 outputs 1 2\n\
        out 2 needs none outputs 3\ndiffer 1 2 by 1\nsystems 1\n",
        "classes of outputs",
    )?;
    let all = (3 << 32) + 1;
    let gated = [Function {
        inputs: all,
        outputs: 1,
    }];
    let controls = [Port::Enable, Port::Trigger];
    let told = printed(rt.alloc(), Some(3), &controls, &[all], &gated)?;
    is_told(
        &told,
        "system s3 inputs 1 outputs 1 functions 1 control enable trigger\n\
        out 1 needs 1 enable trigger outputs 1\nsystems 1\n",
        "both controls",
    )
}

#[test]
fn crossed_ports(rt: HostRuntime) -> Result<(), Fail> {
    let alloc = rt.alloc();
    let top = report(
        alloc,
        None,
        1,
        &[],
        &[1],
        &[Function {
            inputs: 1,
            outputs: 1,
        }],
    )?;
    let functions = [
        Function {
            inputs: 1,
            outputs: 1,
        },
        Function {
            inputs: 2,
            outputs: 2,
        },
    ];
    let crossed = report(alloc, Some(1), 2, &[], &[1, 2], &functions)?;
    let text = print_report(alloc, &[top, crossed])?;
    let expected = "system top inputs 1 outputs 1 functions 1\nout 1 needs 1 outputs 1\n\
        system s1 inputs 2 outputs 2 functions 2\nout 1 needs 1 outputs 1\nout 2 needs 2 outputs 2\n\
        differ 1 2 by 1\nsystems 2\n";
    assert_eq!(rt; text.as_slice(), expected.as_bytes());
    Ok(())
}
