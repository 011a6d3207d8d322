ghost use Rattle.std.specs.Prelude.{◌≡◌, ◌≤◌, IfOk, length};
ghost use Rattle.modules_profile.specs.Functions.{function_for as function_of_needs, functions_for};

use crate::Function;
use base_core::Memory;
use modules_clusters::different_grow;
use std::alloc::Global;

/// The output functions of a system whose outputs, by port, need these inputs: one for each different set, by the least
/// output of each. At most 32 outputs.
pub fn functions_of(alloc: Global, needs: &[u64]) -> Result<Vec<Function>, Memory>
    requires { length needs.now ≤ 32 }
    ensures { IfOk result (λ v. v.items ≡ functions_for needs.now) }
{
    different_grow();
    let mut functions = Vec::new(alloc);
    for k in 0..needs.len() {
        let inputs = needs[k];
        if !needs[..k].contains(&inputs) {
            functions.push(function_for(needs, inputs))?;
        }
    }
    Ok(functions)
}

// The function for the outputs that need just these inputs.
fn function_for(needs: &[u64], inputs: u64) -> Function
    requires { length needs.now ≤ 32 }
    ensures { result ≡ function_of_needs needs.now inputs }
{
    let mut outputs = 0;
    for (k, mask) in needs.iter().enumerate() {
        if *mask == inputs {
            outputs |= 1 << k;
        }
    }
    Function { inputs, outputs }
}
