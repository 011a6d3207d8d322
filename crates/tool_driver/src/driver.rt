ghost use Rattle.std.specs.Prelude.{◌≡◌, IfOk};
ghost use Rattle.c_interpreter.specs.States.{tree_of};
ghost use Rattle.tool_driver.specs.Calling.{at_start};
ghost use Rattle.tool_driver.specs.Drivable.{IsDrivable};

use crate::plans::{Plan, function_plans, inputs_of, update_plan};
use crate::shape::DriveShape;
use base_core::Memory;
use c_interpreter::Machine;
use std::alloc::Global;
use std::marker::Model;

/// An instance of a system in a machine, whose procedures are called one by one. It is seen as the machine, the instance,
/// what is known of the system, the tick modulo the cycle, and what was called and given in that tick.
#[derive(Drop)]
pub struct Driver {
    pub(crate) machine: Machine,
    pub(crate) instance: u32,
    pub(crate) shape: DriveShape,
    pub(crate) plans: Vec<Plan>,
    pub(crate) update: Plan,
    pub(crate) arguments: Vec<i64>,
    pub(crate) tick: u32,
    pub(crate) called: Vec<bool>,
    pub(crate) given: Vec<Option<i64>>,
}

impl Model for Driver {
    ghost use Rattle.c_syntax.specs.contracts.code.Expr as expression;
    ghost use Rattle.c_syntax.specs.contracts.code.Stmt as statement;
    ghost use Rattle.std.specs.Coded.{codes};
    ghost use Rattle.tool_driver.specs.States.{DriverState, IsDriver};

    ghost Value = { DriverState };

    ghost coded = { Prim.hlevel (codes, expression.the_row.coded, statement.the_row.coded) };

    ghost view = { λ d. record {
      machine = d.machine;
      instance = d.instance;
      shape = d.shape;
      now = d.tick;
      called = d.called.items;
      given = d.given.items;
    } };

    ghost invariant = { λ d. IsDriver (record {
      machine = d.machine;
      instance = d.instance;
      shape = d.shape;
      now = d.tick;
      called = d.called.items;
      given = d.given.items;
    }) d.plans.items d.update
        d.arguments.items };
}

impl Driver {
    /// A driver of an instance at the start of a tick, the first of the cycle. All memory is taken here. The only error is
    /// that it runs out.
    pub(crate) fn made(
        alloc: Global,
        machine: Machine,
        instance: u32,
        shape: DriveShape,
    ) -> Result<Driver, Memory>
        requires { IsDrivable (tree_of machine) instance shape }
        ensures { IfOk result (λ d. d ≡ at_start machine instance shape 0) }
    {
        let inputs = inputs_of(alloc, &shape)?;
        let count = inputs.len();
        let plans = function_plans(alloc, machine.checked(), &shape, &inputs)?;
        let update = update_plan(alloc, machine.checked(), &shape, inputs)?;
        let called = vec![in alloc; false; plans.len()]?;
        Ok(Driver {
            machine,
            instance,
            shape,
            plans,
            update,
            arguments: vec![in alloc; 0; count + 1]?,
            tick: 0,
            called,
            given: vec![in alloc; None; count]?,
        })
    }
}
