// Why a call is refused.
ghost use Rattle.std.specs.Prelude.{◌≡◌, ◌<◌, ◌≤◌, ◌^◌, length, zip};
ghost use Rattle.tool_driver.specs.Judging as judging;
ghost use Rattle.tool_driver.specs.Judging.{first_fault, bit_below};

use crate::fault::DriveFault;
use crate::inputs::Input;
use base_fixed_point::{FixType, greatest, least};

// Whether a number is one of a type.
fn is_of_type(of: FixType, value: i64) -> bool
    ensures { result ≡ judging.is_of_type of value }
{
    least(of) <= value && value <= greatest(of)
}

// The error of a value that is out of its input's type.
fn value_fault(input: &Input, value: i64) -> Option<DriveFault>
    ensures { result ≡ judging.value_fault (input.now, value) }
{
    if is_of_type(input.of, value) {
        None
    } else {
        Some(DriveFault::Value { input: input.port })
    }
}

// The error of a value where the tick has another for its input.
fn unlike_fault(given: &[Option<i64>], input: &Input, value: i64) -> Option<DriveFault>
    ensures { result ≡ judging.unlike_fault given.now (input.now, value) }
{
    let first = given.get(input.place as usize).copied().flatten()?;
    if first == value {
        None
    } else {
        Some(DriveFault::Unlike {
            input: input.port,
            first,
            second: value,
        })
    }
}

// The first value that is out of its input's type.
#[tactic(auto, using(crate::proofs::LoopSteps::fault_from))]
fn first_value_fault(inputs: &[Input], values: &[i64]) -> Option<DriveFault>
    requires { length values.now ≡ length inputs.now }
    ensures { result ≡ first_fault judging.value_fault (zip inputs.now values.now) }
{
    for k in 0..values.len() {
        if let Some(fault) = value_fault(&inputs[k], values[k]) {
            return Some(fault);
        }
    }
    None
}

// The first value where the tick has another.
#[tactic(auto, using(crate::proofs::LoopSteps::fault_from))]
fn first_unlike_fault(given: &[Option<i64>], inputs: &[Input], values: &[i64]) -> Option<DriveFault>
    requires { length values.now ≡ length inputs.now }
    ensures { result ≡ first_fault (judging.unlike_fault given.now) (zip inputs.now values.now) }
{
    for k in 0..values.len() {
        if let Some(fault) = unlike_fault(given, &inputs[k], values[k]) {
            return Some(fault);
        }
    }
    None
}

/// Why values for these inputs are refused, where the tick has those: the first out of its input's type, and else the first
/// beside another.
pub(crate) fn values_fault(
    given: &[Option<i64>],
    inputs: &[Input],
    values: &[i64],
) -> Option<DriveFault>
    requires { length values.now ≡ length inputs.now }
    ensures { result ≡ judging.values_fault given.now inputs.now values.now }
{
    match first_value_fault(inputs, values) {
        Some(fault) => Some(fault),
        None => first_unlike_fault(given, inputs, values),
    }
}

/// Why a call of a function is refused for its turn: this tick had one.
pub(crate) fn twice_fault(called: &[bool], function: u32) -> Option<DriveFault>
    requires there { function ≤ length called.now }
    requires least { 0 < function }
    ensures { result ≡ judging.twice_fault called.now function }
{
    if called[function as usize - 1] {
        Some(DriveFault::Twice { function })
    } else {
        None
    }
}

// A mask with one more bit below.
fn with_bit(bit: bool, mask: u64) -> u64
    requires { mask < 2 ^ 62 }
    ensures { result ≡ bit_below bit mask }
{
    if bit { 2 * mask + 1 } else { 2 * mask }
}

// The functions that this tick had no call of: bit j - 1 for function j.
#[tactic(auto, using(crate::proofs::LoopSteps::missing_from, crate::proofs::LoopSteps::missing_few))]
fn missing(called: &[bool]) -> u64
    requires { length called.now ≤ 32 }
    ensures { result ≡ judging.missing called.now }
{
    let mut missing = 0;
    let mut k = called.len();
    while k > 0 {
        k -= 1;
        missing = with_bit(!called[k], missing);
    }
    missing
}

/// Why an update is refused for its turn: functions are missing.
pub(crate) fn early_fault(called: &[bool]) -> Option<DriveFault>
    requires { length called.now ≤ 32 }
    ensures { result ≡ judging.early_fault called.now }
{
    let missing = missing(called);
    if missing == 0 {
        None
    } else {
        Some(DriveFault::Early { missing })
    }
}
