// The equations of the root.
ghost use Rattle.std.specs.Prelude.{◌≡◌, ◌++◌, ◌∷◌, pos, true, false, IfOk, OnOk, map};
ghost use Rattle.lustre_syntax.specs.declared.LusOp.TheVariants.{Add, Mod};
ghost use Rattle.lustre_syntax.specs.Named.{renamed_equation};
ghost use Rattle.lustre_syntax.specs.Plain.{equation_tree, expr_tree};
ghost use Rattle.lustre_syntax.specs.Tree as tree;
ghost use Rattle.lustre_expressions.specs.Found.{place_in};
ghost use Rattle.lustre_emitter.specs.RootParts as parts;

use crate::root_names::numbered_places;
use base_core::{Memory, Wires};
use lustre_expressions::{Callees, Places};
use lustre_syntax::{LusEq, LusExpr, LusOp};
use std::alloc::Global;

/// The name of the tick.
const NOW: &[u8] = b"now";

/// The name of the root's system.
const TOP: &[u8] = b"top";

// An operator on two expressions.
fn two(alloc: Global, op: LusOp, left: LusExpr, right: LusExpr) -> Result<LusExpr, Memory>
    ensures { IfOk result (λ e. expr_tree e ≡ tree.two op (expr_tree left) (expr_tree right)) }
{
    Ok(LusExpr::Two(op, Box::new(alloc, left)?, Box::new(alloc, right)?))
}

// The tick in a cycle of so many, which has this place.
fn next_now(alloc: Global, now: u32, hyper: u32) -> Result<LusExpr, Memory>
    ensures { IfOk result (λ e. expr_tree e
        ≡ tree.arrow (tree.number (pos 0))
        (tree.two Mod (tree.two Add (tree.previous now) (tree.number (pos 1)))
        (tree.number (pos hyper)))) }
{
    let sum = two(alloc, LusOp::Add, LusExpr::Pre(now), LusExpr::Number(1))?;
    let rest = two(alloc, LusOp::Mod, sum, LusExpr::Number(i64::from(hyper)))?;
    let first = Box::new(alloc, LusExpr::Number(0))?;
    Ok(LusExpr::Arrow(first, Box::new(alloc, rest)?))
}

/// The equation that counts the ticks in a cycle of so many.
pub(crate) fn now_equation(alloc: Global, places: &Places, hyper: u32) -> Result<LusEq, Memory>
    ensures { IfOk result (λ e. (callee : _) → equation_tree e
        ≡ renamed_equation (place_in places.now) callee (parts.now_equation hyper)) }
{
    let now = places.place(NOW);
    Ok(LusEq::Set {
        line: 0,
        name: now,
        value: next_now(alloc, now, hyper)?,
    })
}

// What `top` gets: the tick, that the model is active, that it isn't off, and its inputs.
fn top_values(alloc: Global, now: u32, inputs: &[u32]) -> Result<Vec<LusExpr>, Memory>
    ensures { IfOk result (λ v. map expr_tree v.items
        ≡ tree.name now ∷ tree.truth true ∷ tree.truth false ∷ map tree.name inputs.now) }
{
    let mut values = Vec::new(alloc);
    values.push(LusExpr::Name(now))?;
    values.push(LusExpr::Truth(true))?;
    values.push(LusExpr::Truth(false))?;
    for input in inputs {
        values.push(LusExpr::Name(*input))?;
    }
    Ok(values)
}

/// The call of `top`, which has so many inputs and outputs.
pub(crate) fn top_equation(
    alloc: Global,
    callees: &Callees,
    places: &Places,
    inputs: usize,
    outputs: usize,
) -> Result<LusEq, Memory>
    ensures { IfOk result (λ e. equation_tree e
        ≡ renamed_equation (place_in places.now) (place_in callees.now.places.now)
        (parts.top_equation inputs outputs)) }
{
    let given = numbered_places(alloc, places, true, outputs)?;
    let inputs = numbered_places(alloc, places, false, inputs)?;
    Ok(LusEq::Call {
        line: 0,
        names: Wires::new(given),
        node: callees.places.place(TOP),
        values: top_values(alloc, places.place(NOW), inputs.as_slice())?,
    })
}
