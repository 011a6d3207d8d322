// The calls of a driver.
ghost use Rattle.std.specs.Prelude.{◌≡◌, ◌<◌, ◌≤◌, ◌-◌, ◌+◌, ◌%◌, ◌^◌, None, Some, IfOk, IfErr, length, slice_get};
ghost use Rattle.tool_driver.specs.Calling.{IsCallFor, IsUpdateFor, IsCallOf, IsUpdate, IsStuckIn};
ghost use Rattle.tool_driver.specs.Drivable.{IsDrivable};
ghost use Rattle.tool_driver.specs.Judging as judging;
ghost use Rattle.tool_driver.specs.Shapes.{function_inputs};
ghost use Rattle.tool_driver.specs.States.{plan_of, plan_of_update, program_of};

use crate::calling::{forget_calls, forget_values, keep_values, make_call, put_numbers};
use crate::driver::Driver;
use crate::fault::DriveFault;
use crate::judging::{early_fault, twice_fault, values_fault};
use crate::plans::Plan;
use crate::shape::DriveShape;
use c_syntax::{Cost, Stuck};

// The plan of the calls of a function.
fn plan_at(plans: &[Plan], function: u32) -> &Plan
    requires least { 0 < function }
    requires most { function ≤ length plans.now }
    ensures { slice_get plans.now (function - 1) ≡ Some result.now }
{
    &plans[function as usize - 1]
}

// The number of the next tick of a cycle.
fn next_tick(tick: u32, shape: &DriveShape) -> u32
    requires few { shape.now.hyper ≤ 2 ^ 30 }
    requires within { tick < shape.now.hyper }
    ensures { result ≡ (tick + 1) % shape.now.hyper }
{
    (tick + 1) % shape.hyper
}

impl Driver {
    /// Why a call of a function is refused, if it is.
    pub(crate) fn call_fault(&self, function: u32, values: &[i64]) -> Option<DriveFault>
        requires least { 0 < function }
        requires most { function ≤ length self.now.shape.functions }
        requires values { length values.now ≡ length (function_inputs self.now.shape function) }
        ensures fault { result ≡ judging.call_fault self.now function values.now }
        ensures drivable { IsDrivable (program_of self.now) self.now.instance self.now.shape }
    {
        let plan = plan_at(&self.plans, function);
        match twice_fault(&self.called, function) {
            Some(fault) => Some(fault),
            None => values_fault(&self.given, &plan.inputs, values),
        }
    }

    /// Why an update is refused, if it is.
    pub(crate) fn update_fault(&self, values: &[i64]) -> Option<DriveFault>
        requires { IsUpdateFor self.now values.now }
        ensures fault { result ≡ judging.update_fault self.now values.now }
        ensures drivable { IsDrivable (program_of self.now) self.now.instance self.now.shape }
    {
        let plan = &self.update;
        match early_fault(&self.called) {
            Some(fault) => Some(fault),
            None => values_fault(&self.given, &plan.inputs, values),
        }
    }

    /// A call of a function that isn't refused.
    pub(crate) fn make(
        &mut self,
        function: u32,
        values: &[i64],
        out: &mut [i64],
    ) -> Result<Cost, Stuck>
        requires call { IsCallFor self.old function values.now out.old }
        requires right { judging.call_fault self.old function values.now ≡ None }
        ensures made { IfOk result (λ cost. IsCallOf function values.now out.new cost self.old self.new) }
        ensures stuck { IfErr result
            (λ at. IsStuckIn (plan_of self.old function) values.now at self.old self.new) }
        ensures kept { IfErr result (λ at. out.new ≡ out.old) }
    {
        let plan = plan_at(&self.plans, function);
        let room = &mut self.arguments;
        let cost = match make_call(
            &mut self.machine,
            self.instance,
            plan,
            self.tick,
            values,
            room,
        ) {
            Ok(cost) => cost,
            Err(at) => return Err(at),
        };
        put_numbers(&self.machine, self.instance, &plan.outputs, out);
        keep_values(&plan.inputs, values, &mut self.given);
        self.called[function as usize - 1] = true;
        Ok(cost)
    }

    /// An update that isn't refused.
    pub(crate) fn make_update(&mut self, values: &[i64]) -> Result<Cost, Stuck>
        requires call { IsUpdateFor self.old values.now }
        requires right { judging.update_fault self.old values.now ≡ None }
        ensures made { IfOk result (λ cost. IsUpdate values.now cost self.old self.new) }
        ensures stuck { IfErr result
            (λ at. IsStuckIn (plan_of_update self.old) values.now at self.old self.new) }
    {
        let plan = &self.update;
        let room = &mut self.arguments;
        let cost = match make_call(
            &mut self.machine,
            self.instance,
            plan,
            self.tick,
            values,
            room,
        ) {
            Ok(cost) => cost,
            Err(at) => return Err(at),
        };
        self.tick = next_tick(self.tick, &self.shape);
        forget_calls(&mut self.called);
        forget_values(&mut self.given);
        Ok(cost)
    }
}
