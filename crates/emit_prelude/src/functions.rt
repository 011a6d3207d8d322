ghost use Rattle.std.specs.Prelude.{◌≡◌, IfOk, map};
ghost use Rattle.c_syntax.specs.Plain.{pure_tree};
ghost use Rattle.emit_prelude.specs.Bodies.{function_trees};
ghost use Rattle.emit_prelude.specs.Functions.{tree_of};
ghost use Rattle.emit_prelude.specs.Rules.{IsPrelude};

use crate::function::Function;
use base_core::Memory;
use c_syntax::Pure;
use std::alloc::Global;

// The functions in the order in which they are emitted.
const FUNCTIONS: [Function; 8] = [
    Function::Floor,
    Function::Ceiling,
    Function::Zero,
    Function::Nearest,
    Function::Away,
    Function::Even,
    Function::Clamp,
    Function::Wrap,
];

/// Functions as they are emitted.
fn definitions(alloc: Global, functions: &[Function]) -> Result<Vec<Pure>, Memory>
    ensures { IfOk result (λ ps. map pure_tree ps.items ≡ map tree_of functions.now) }
{
    let mut definitions = Vec::new(alloc);
    for function in functions {
        definitions.push(function.definition(alloc)?)?;
    }
    Ok(definitions)
}

/// The eight pure functions of the emitted C, each of one `return`. Six divide v by d = 2^k, with k of 1 to 62 and v
/// of at most 2^62, and round the quotient: down, up, toward zero, to the nearest with ties up, away from zero or to
/// even. `clamp` and `wrap` bring v into a range as saturation and wrapping do. None calls another, and none overflows.
pub fn prelude(alloc: Global) -> Result<Vec<Pure>, Memory>
    ensures trees { IfOk result (λ ps. map pure_tree ps.items ≡ function_trees) }
    ensures rules { IfOk result (λ ps. IsPrelude (map pure_tree ps.items)) }
{
    definitions(alloc, &FUNCTIONS)
}
