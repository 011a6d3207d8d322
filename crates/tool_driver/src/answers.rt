// The calls of a driver, and the scripts that it stands for.
ghost use Rattle.std.specs.Prelude.{◌≡◌, [], IfOk, IfErr};
ghost use Rattle.c_interpreter.specs.States.{tree_of};
ghost use Rattle.right_claim.specs.Scripts.{Call, out_with, update_with};
ghost use Rattle.tool_driver.specs.Calling.{IsCallFor, IsUpdateFor, IsCallOf, IsUpdate, Leaves, at_start};
ghost use Rattle.tool_driver.specs.Drivable.{IsDrivable};
ghost use Rattle.tool_driver.specs.Driven.{AnswersRight, Driven, IsReadyFor, StandsFor};
ghost use Rattle.tool_driver.specs.Judging.{call_fault, refusal_of, update_fault};
ghost use Rattle.tool_driver.specs.States.{plan_of, plan_of_update};

use crate::driver::Driver;
use crate::fault::DriveFault;
use crate::laws::{calls_go_on, new_drivers_stand, updates_go_on};
use crate::shape::DriveShape;
use base_core::Memory;
use c_interpreter::Machine;
use c_syntax::Cost;
use std::alloc::Global;

impl Driver {
    /// A driver of an instance at the start of a tick, the first of its cycle: no function is called, and no value given. All
    /// memory is taken here. Over a machine of right code as `root_start` left it, it stands for the empty script.
    ///
    /// # Errors
    ///
    /// Only where memory runs out.
    pub fn new(
        alloc: Global,
        machine: Machine,
        instance: u32,
        shape: DriveShape,
    ) -> Result<Driver, Memory>
        requires { IsDrivable (tree_of machine) instance shape }
        ensures fresh { IfOk result (λ d. d ≡ at_start machine instance shape 0) }
        ensures stands { IfOk result (λ d. (w : Driven) → IsReadyFor w machine instance shape →
            StandsFor w d []) }
    {
        new_drivers_stand();
        match Driver::made(alloc, machine, instance, shape) {
            Ok(driver) => Ok(driver),
            Err(fault) => Err(fault),
        }
    }

    /// A call of a function, from 1 on, with the values of its inputs by number and then of the controls that it takes. The
    /// outputs that it gives are written into `out` by port. The result is what it took. No memory is taken.
    ///
    /// # Errors
    ///
    /// In this order: `Twice` exactly where the function was called in this tick, `Value` exactly where a value is out of its
    /// input's type, and `Unlike` exactly where this tick had another value for an input, each with the first such; the driver
    /// is then as it was. `Stuck` exactly where the machine is stuck; it is then as the machine left it. In right code that
    /// never comes. Where a call gives an error, `out` is as it was.
    pub fn call(
        &mut self,
        function: u32,
        values: &[i64],
        out: &mut [i64],
    ) -> Result<Cost, DriveFault>
        requires { IsCallFor self.old function values.now out.old }
        ensures refused { refusal_of result ≡ call_fault self.old function values.now }
        ensures made { IfOk result (λ cost. IsCallOf function values.now out.new cost self.old self.new) }
        ensures left { IfErr result
            (λ why. Leaves why (plan_of self.old function) values.now self.old self.new) }
        ensures kept { IfErr result (λ why. out.new ≡ out.old) }
        ensures stands { AnswersRight self.old (out_with function values.now) out.new self.new result }
    {
        calls_go_on();
        match self.call_fault(function, values) {
            Some(fault) => Err(fault),
            None => match self.make(function, values, out) {
                Ok(cost) => Ok(cost),
                Err(at) => Err(DriveFault::Stuck(at)),
            },
        }
    }

    /// The update, with the values of all inputs by number and then of the controls. The next tick begins. The result is what
    /// it took. No memory is taken.
    ///
    /// # Errors
    ///
    /// In this order: `Early` exactly where functions weren't called in this tick, with all of them; then `Value` and `Unlike`
    /// as in a call; the driver is then as it was. `Stuck` exactly where the machine is stuck, which in right code never comes.
    pub fn update(&mut self, values: &[i64]) -> Result<Cost, DriveFault>
        requires { IsUpdateFor self.old values.now }
        ensures refused { refusal_of result ≡ update_fault self.old values.now }
        ensures made { IfOk result (λ cost. IsUpdate values.now cost self.old self.new) }
        ensures left { IfErr result
            (λ why. Leaves why (plan_of_update self.old) values.now self.old self.new) }
        ensures stands { AnswersRight self.old (update_with values.now) [] self.new result }
    {
        updates_go_on();
        match self.update_fault(values) {
            Some(fault) => Err(fault),
            None => match self.make_update(values) {
                Ok(cost) => Ok(cost),
                Err(at) => Err(DriveFault::Stuck(at)),
            },
        }
    }
}
