// The nodes of the pure functions.
ghost use Rattle.std.specs.Prelude.{◌≡◌, ◌++◌, ◌∷◌, [], codes, IfOk, OnOk, map};
ghost use Rattle.c_syntax.specs.Plain.{expr_tree, pure_tree};
ghost use Rattle.emit_prelude.specs.Bodies.{function_trees};
ghost use Rattle.lustre_syntax.specs.Named.{place_of, renamed};
ghost use Rattle.lustre_syntax.specs.Plain.{declared_names, equation_tree, node_tree};
ghost use Rattle.lustre_syntax.specs.Tree.{set};
ghost use Rattle.lustre_system.specs.FromC.{value_of};
ghost use Rattle.lustre_system.specs.Functions as named;
ghost use Rattle.lustre_expressions.specs.Found.{place_in};
ghost use Rattle.lustre_expressions.specs.Placed.{placed_by};

use base_core::{Memory, Text};
use c_syntax::Pure;
use lustre_expressions::{Callees, Calls, ParamNames, places_of_names, small, value_from};
use lustre_syntax::{LusEq, LusNode};
use std::alloc::Global;

/// The name of what a function gives.
const RESULT: &[u8] = b"r";

// The names of the node of a function: its parameters, and what it gives.
fn function_names(alloc: Global, params: &[Text]) -> Result<Vec<(Text, bool)>, Memory>
    ensures { IfOk result (λ v. declared_names v.items
        ≡ map named.int_name params.now ++ named.int_name (codes "r") ∷ []) }
{
    let mut names = Vec::new(alloc);
    for param in params {
        names.push((Text::copy_of(alloc, param.bytes())?, false))?;
    }
    names.push((Text::copy_of(alloc, RESULT)?, false))?;
    Ok(names)
}

// The equation of the node of a function, which has these names.
fn function_equation(
    alloc: Global,
    callees: &Callees,
    function: &Pure,
    names: &[(Text, bool)],
) -> Result<LusEq, Memory>
    ensures { IfOk result (λ e. equation_tree e
        ≡ set 0 (place_of (map (λ x. x.0) names.now) (codes "r"))
        (renamed (place_of (map (λ x. x.0) names.now))
        (value_of (named.param_name function.now.params.items) named.function_name (λ n. [])
        (expr_tree function.now.body)))) }
{
    let places = places_of_names(alloc, names)?;
    let scope = ParamNames {
        places: &places,
        callees,
        params: function.params.as_slice(),
    };
    let equations = Vec::new(alloc);
    let mut calls = Calls {
        equations,
        count: 0,
    };
    let value = value_from(alloc, &scope, &mut calls, &function.body)?;
    Ok(LusEq::Set {
        line: 0,
        name: places.place(RESULT),
        value,
    })
}

// The node of a function.
fn function_node(alloc: Global, callees: &Callees, function: &Pure) -> Result<LusNode, Memory>
    ensures { IfOk result (λ n. node_tree n ≡ placed_by (place_in callees.now.places.now)
        (named.function_node (pure_tree function.now))) }
{
    let names = function_names(alloc, function.params.as_slice())?;
    let mut equations = Vec::new(alloc);
    equations.push(function_equation(alloc, callees, function, names.as_slice())?)?;
    Ok(LusNode {
        name: Text::copy_of(alloc, function.name.bytes())?,
        line: 0,
        inputs: small(function.params.len())?,
        outputs: 1,
        names,
        equations,
    })
}

/// Adds the nodes of the pure functions.
pub(crate) fn push_functions(
    alloc: Global,
    callees: &Callees,
    nodes: &mut Vec<LusNode>,
) -> Result<(), Memory>
    requires { map pure_tree callees.now.functions.now ≡ function_trees }
    ensures { OnOk result (map node_tree nodes.new.items ≡ map node_tree nodes.old.items
        ++ map (placed_by (place_in callees.now.places.now)) named.function_nodes) }
{
    for function in callees.functions {
        nodes.push(function_node(alloc, callees, function)?)?;
    }
    Ok(())
}
