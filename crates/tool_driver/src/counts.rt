// How many numbers the calls of a driver take and give.
ghost use Rattle.std.specs.Prelude.{◌≡◌, ◌≤◌, ◌<◌, ◌^◌, All, map, length, IfOk};
ghost use Rattle.tool_driver.specs.Counts as counts;
ghost use Rattle.tool_driver.specs.Shapes.{inputs_of, function_outputs};

use crate::driver::Driver;
use crate::plans::Plan;
use std::alloc::{AllocError, Global};

// How many inputs each of these calls takes.
fn counts_of(alloc: Global, plans: &[Plan]) -> Result<Vec<u32>, AllocError>
    requires { All (λ p. length p.inputs < 2 ^ 32) plans.now }
    ensures { IfOk result (λ found. found.items ≡ map (λ p. length p.inputs) plans.now) }
{
    let mut found = Vec::new(alloc);
    for plan in plans {
        found.push(plan.inputs.len() as u32)?;
    }
    Ok(found)
}

impl Driver {
    /// How many inputs each function takes, its controls among them, from function 1 on. The only error is that memory runs out.
    pub fn input_counts(&self, alloc: Global) -> Result<Vec<u32>, AllocError>
        ensures counts { IfOk result (λ found. found.items ≡ counts.input_counts self.now.shape) }
        ensures few { length self.now.shape.functions ≤ 32 }
    {
        counts_of(alloc, &self.plans)
    }

    /// How many inputs the system has, its controls among them.
    pub fn all_inputs(&self) -> usize
        ensures { result ≡ length (inputs_of self.now.shape) }
    {
        self.given.len()
    }

    /// How many outputs the system has.
    pub fn all_outputs(&self) -> usize
        ensures all { result ≡ length self.now.shape.outputs }
        ensures few { result ≤ 32 }
    {
        self.shape.outputs.len()
    }

    /// How many outputs a function gives, by its number from 1.
    pub fn outputs_of(&self, function: u32) -> usize
        requires least { 0 < function }
        requires most { function ≤ length self.now.shape.functions }
        ensures each { result ≡ length (function_outputs self.now.shape function) }
        ensures within { result ≤ length self.now.shape.outputs }
    {
        self.plans[function as usize - 1].outputs.len()
    }
}
