// What a call does to a driver's parts.
ghost use Rattle.std.specs.Prelude.{◌≡◌, ◌<◌, ◌≤◌, ◌^◌, ◌+◌, ◌∷◌, [], false, length, map, pos, zip, take, replicate, None, IfOk, IfErr};
ghost use Rattle.c_interpreter.specs.Machines.{IsCallable, IsCall, IsStuckCall};
ghost use Rattle.tool_driver.specs.Calling.{given_with};
ghost use Rattle.tool_driver.specs.States as states;

use crate::inputs::Input;
use crate::plans::Plan;
use base_core::Text;
use c_interpreter::Machine;
use c_syntax::{Cost, Stuck};

// Writes the arguments of a call, the tick's number before the values, into the first places of a slice.
#[tactic(auto, using(crate::proofs::LoopSteps::take_set_more))]
fn put_arguments(tick: i64, values: &[i64], arguments: &mut [i64])
    requires { length values.now < length arguments.old }
    ensures { take (length values.now + 1) arguments.new ≡ tick ∷ values.now }
{
    arguments[0] = tick;
    for k in 0..values.len() {
        arguments[k + 1] = values[k];
    }
}

/// A call of a plan's procedure on an instance, in a tick of this number.
pub(crate) fn make_call(
    machine: &mut Machine,
    instance: u32,
    plan: &Plan,
    tick: u32,
    values: &[i64],
    arguments: &mut [i64],
) -> Result<Cost, Stuck>
    requires room { length values.now < length arguments.old }
    requires callable { IsCallable machine.old plan.now.procedure instance (pos tick ∷ values.now) }
    ensures program { machine.new.program ≡ machine.old.program }
    ensures called { IfOk result
        (IsCall machine.old machine.new plan.now.procedure instance (pos tick ∷ values.now)) }
    ensures stuck { IfErr result (IsStuckCall machine.old machine.new plan.now.procedure instance
        (pos tick ∷ values.now)) }
{
    put_arguments(i64::from(tick), values, arguments);
    machine.call(plan.procedure, instance, &arguments[..values.len() + 1])
}

fn number_of(machine: &Machine, instance: u32, name: &[u8]) -> i64
    ensures { result ≡ states.number_of machine.now instance name.now }
{
    machine.field(instance, name).unwrap_or(0)
}

/// Writes the numbers of the fields with these names, of an instance, into a slice.
pub(crate) fn put_numbers(machine: &Machine, instance: u32, names: &[Text], out: &mut [i64])
    requires { length out.old ≡ length names.now }
    ensures { out.new ≡ map (states.number_of machine.now instance) names.now }
{
    for k in 0..names.len() {
        out[k] = number_of(machine, instance, names[k].bytes());
    }
}

/// Keeps the values of these inputs, of two for one input the earlier.
#[tactic(auto, using(crate::proofs::LoopSteps::given_from, crate::proofs::LoopSteps::set_past))]
pub(crate) fn keep_values(inputs: &[Input], values: &[i64], given: &mut [Option<i64>])
    requires { length values.now ≡ length inputs.now }
    ensures { given.new ≡ given_with given.old (zip inputs.now values.now) }
{
    let mut k = values.len();
    while k > 0 {
        k -= 1;
        let place = inputs[k].place as usize;
        if place < given.len() {
            given[place] = Some(values[k]);
        }
    }
}

/// Forgets what was called.
#[tactic(auto, using(crate::proofs::LoopSteps::take_set_more))]
pub(crate) fn forget_calls(called: &mut [bool])
    ensures { called.new ≡ replicate (length called.old) false }
{
    for k in 0..called.len() {
        called[k] = false;
    }
}

/// Forgets what was given.
#[tactic(auto, using(crate::proofs::LoopSteps::take_set_more))]
pub(crate) fn forget_values(given: &mut [Option<i64>])
    ensures { given.new ≡ replicate (length given.old) None }
{
    for k in 0..given.len() {
        given[k] = None;
    }
}
