// Calls on the topmost system by the root.
ghost use Rattle.std.specs.Prelude.{◌≡◌, ◌+◌, ◌<◌, ◌^◌, ◌++◌, [], IfOk, OnOk, find, map, bytes_eq, option_map, unwrap_or};
ghost use Rattle.std.specs.List.{position_from};
ghost use Rattle.c_syntax.specs.declared.code.Target.TheVariants.{Child as child_target};
ghost use Rattle.c_syntax.specs.Tree.{call, exprs_of_list};
ghost use Rattle.c_syntax.specs.Plain.{expr_tree, stmt_tree, param_trees, procedure_tree};
ghost use Rattle.emit_shape.specs.Assembled as assembled;
ghost use Rattle.emit_linker.specs.Places.{trees};

use crate::codes::Codes;
use crate::lists::{is_named, small};
use crate::parts::procedures_of;
use crate::public::procedure_position;
use base_core::{Memory, Text};
use c_syntax::{CType, Expr, Leaf, Procedure, Stmt, Target};
use std::alloc::Global;

/// The place of the first parameter of a name.
fn place_of(params: &[(Text, CType)], name: &[u8]) -> Option<usize>
    ensures { result ≡ position_from (λ r. bytes_eq r.0 name.now) 0 params.now }
{
    params.iter().position(|r| is_named(&r.0, name))
}

/// The position of the first parameter of a name; where there is none, 0.
fn param_position(params: &[(Text, CType)], name: &[u8]) -> Result<u32, Memory>
    ensures { IfOk result (λ k. k
        ≡ unwrap_or (position_from (λ r. bytes_eq r.name name.now) 0 (param_trees params.now)) 0) }
{
    small(place_of(params, name).unwrap_or(0))
}

/// The root's parameter for a parameter of the topmost system, or the tick.
fn root_value(params: &[(Text, CType)], wanted: &(Text, CType)) -> Result<Expr, Memory>
    ensures { IfOk result (λ e. expr_tree e
        ≡ assembled.root_value [] (param_trees params.now)
        (record { name = wanted.now.0; type = wanted.now.1 })) }
{
    if is_named(&wanted.0, b"now".as_slice()) {
        return Ok(Expr::Read(Leaf::Own(0)));
    }
    let position = param_position(params, wanted.0.bytes())?;
    Ok(Expr::Read(Leaf::Param(position)))
}

/// What each parameter takes.
fn root_values(
    alloc: Global,
    params: &[(Text, CType)],
    wanted: &[(Text, CType)],
) -> Result<Vec<Expr>, Memory>
    ensures { IfOk result (λ v. map expr_tree v.items
        ≡ map (assembled.root_value [] (param_trees params.now)) (param_trees wanted.now)) }
{
    let mut values = Vec::new(alloc);
    for param in wanted {
        values.push(root_value(params, param)?)?;
    }
    Ok(values)
}

/// The first procedure of a name.
fn procedure_named<'a>(procedures: &'a [Procedure], name: &[u8]) -> Option<&'a Procedure>
    ensures { option_map (λ q. procedure_tree q.now) result
        ≡ find (λ q. bytes_eq q.name name.now) (map procedure_tree procedures.now) }
{
    for q in procedures {
        if is_named(&q.name, name) {
            return Some(q);
        }
    }
    None
}

/// What a procedure of a name takes.
fn values_for(
    alloc: Global,
    params: &[(Text, CType)],
    procedures: &[Procedure],
    name: &[u8],
) -> Result<Vec<Expr>, Memory>
    ensures { IfOk result (λ v. map expr_tree v.items
        ≡ map (assembled.root_value [] (param_trees params.now))
        (unwrap_or
        (option_map (λ q. q.params)
        (find (λ q. bytes_eq q.name name.now) (map procedure_tree procedures.now))) [])) }
{
    match procedure_named(procedures, name) {
        Some(q) => root_values(alloc, params, q.params.as_slice()),
        None => Ok(Vec::new(alloc)),
    }
}

/// A call on the field after the tick and the outputs.
fn call_behind(outputs: u32, procedure: u32, values: Vec<Expr>) -> Stmt
    requires { outputs + 1 < 2 ^ 32 }
    ensures { stmt_tree result
        ≡ call 0 procedure (child_target (outputs + 1))
        (exprs_of_list (map expr_tree values.items)) }
{
    Stmt::Call {
        line: 0,
        procedure,
        target: Target::Child(outputs + 1),
        values,
    }
}

/// A call of the topmost system's procedure of a name, where the root has so many outputs.
pub(crate) fn call_top(
    alloc: Global,
    codes: &Codes<'_>,
    params: &[(Text, CType)],
    outputs: u32,
    name: &[u8],
) -> Result<Stmt, Memory>
    requires { outputs + 1 < 2 ^ 32 }
    ensures { IfOk result (λ s. stmt_tree s
        ≡ assembled.call_top (trees codes.now.list.now) (param_trees params.now) outputs name.now) }
{
    let procedure = procedure_position(codes, 0, name)?;
    let values = values_for(alloc, params, procedures_of(codes.at(0)), name)?;
    Ok(call_behind(outputs, procedure, values))
}

/// Calls of the topmost system's procedures of some names.
pub(crate) fn calls_of_top(
    alloc: Global,
    codes: &Codes<'_>,
    params: &[(Text, CType)],
    outputs: u32,
    names: &[Text],
) -> Result<Vec<Stmt>, Memory>
    requires { outputs + 1 < 2 ^ 32 }
    ensures { IfOk result (λ v. map stmt_tree v.items
        ≡ map (assembled.call_top (trees codes.now.list.now) (param_trees params.now) outputs)
        names.now) }
{
    let mut calls = Vec::new(alloc);
    for name in names {
        calls.push(call_top(alloc, codes, params, outputs, name.bytes())?)?;
    }
    Ok(calls)
}
