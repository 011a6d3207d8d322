// Which procedures are helpers, and where they are called.
ghost use Rattle.std.specs.Prelude.{◌≡◌, ℕ, IfOk, OnOk, true, flat_map, length, map, option_map};
ghost use Rattle.std.specs.List.{slice_set};
ghost use Rattle.c_syntax.specs.Tree as tree;
ghost use Rattle.c_syntax.specs.Tree.{exprs_of_list, stmts_of_list};
ghost use Rattle.c_syntax.specs.Plain.{expr_tree, procedure_tree, stmt_tree};
ghost use Rattle.emit_pruned.specs.Marks.{flag_at, marked};
ghost use Rattle.emit_inlined.specs.Inlined.{param_of, params_of};
ghost use Rattle.emit_inlined.specs.Steps.{call_by, call_seen, helper_at, helpers_by, helpers_of, inlined_flags, is_helper_of, stmt_helpers};

use crate::helpers::HelperCall;
use crate::names::is_root_name;
use base_core::Memory;
use c_names::is_interface;
use c_syntax::{Expr, Leaf, Procedure, Stmt, Target};
use std::alloc::Global;

/// Whether a procedure is a helper, which is called so often.
fn is_helper(alloc: Global, q: &Procedure, calls: u32) -> Result<bool, Memory>
    ensures { IfOk result (λ b. b ≡ is_helper_of (procedure_tree q.now) calls) }
{
    let name = q.name.bytes();
    let is_logged = is_interface(alloc, name)?;
    Ok(q.private && calls == 1 && !(is_logged || is_root_name(name)))
}

/// By position which procedures are helpers.
pub(crate) fn helpers(
    alloc: Global,
    procedures: &[Procedure],
    counts: &[u32],
) -> Result<Vec<bool>, Memory>
    requires { length counts.now ≡ length procedures.now }
    ensures { IfOk result (λ v. (k : ℕ) →
        flag_at v.items k ≡ helper_at counts.now (map procedure_tree procedures.now) k) }
{
    let mut list = Vec::new(alloc);
    for (position, q) in procedures.iter().enumerate() {
        list.push(is_helper(alloc, q, counts[position])?)?;
    }
    Ok(list)
}

/// Whether a flag is there, and set.
fn is_set(flags: &[bool], position: u32) -> bool
    ensures { result ≡ flag_at flags.now position }
{
    match flags.get(position as usize) {
        Some(flag) => *flag,
        None => false,
    }
}

/// The parameter that an expression is a plain read of.
fn param_of(e: &Expr) -> Option<u32>
    ensures { result ≡ param_of (expr_tree e.now) }
{
    match e {
        Expr::Read(leaf) => param_of_leaf(*leaf),
        Expr::Literal(_) => None,
        Expr::Neg(_) => None,
        Expr::Binary(_, _, _) => None,
        Expr::Pick(_, _, _) => None,
        Expr::Pure(_, _) => None,
        Expr::At(_, _) => None,
    }
}

/// The parameter that a leaf is.
fn param_of_leaf(leaf: Leaf) -> Option<u32>
    ensures { result ≡ param_of (tree.read leaf) }
{
    match leaf {
        Leaf::Param(param) => Some(param),
        Leaf::Own(_) => None,
        Leaf::Child(_, _) => None,
    }
}

/// The parameters that are passed on, where nothing else is.
fn passed_params(alloc: Global, values: &[Expr]) -> Result<Option<Vec<u32>>, Memory>
    ensures { IfOk result (λ o. option_map (λ v. v.items) o
        ≡ params_of (exprs_of_list (map expr_tree values.now))) }
{
    let mut params = Vec::new(alloc);
    for value in values {
        let Some(param) = param_of(value) else {
            return Ok(None);
        };
        params.push(param)?;
    }
    Ok(Some(params))
}

/// The call of a helper that a call on `s` is, if it passes on parameters alone.
fn own_call(
    alloc: Global,
    helpers: &[bool],
    procedure: u32,
    values: &[Expr],
) -> Result<Option<HelperCall>, Memory>
    ensures { IfOk result (λ o. option_map call_seen o ≡ call_by (flag_at helpers.now)
        (tree.call 0 procedure Target.Own (exprs_of_list (map expr_tree values.now)))) }
{
    if !is_set(helpers, procedure) {
        return Ok(None);
    }
    match passed_params(alloc, values)? {
        Some(params) => Ok(Some(HelperCall { procedure, params })),
        None => Ok(None),
    }
}

/// The call of a helper that a statement is, if its body can go there.
pub(crate) fn helper_call(
    alloc: Global,
    helpers: &[bool],
    s: &Stmt,
) -> Result<Option<HelperCall>, Memory>
    ensures { IfOk result
        (λ o. option_map call_seen o ≡ call_by (flag_at helpers.now) (stmt_tree s.now)) }
{
    match s {
        Stmt::Set { .. } => Ok(None),
        Stmt::SetAt { .. } => Ok(None),
        Stmt::If { .. } => Ok(None),
        Stmt::Call {
            procedure,
            target,
            values,
            ..
        } => match target {
            Target::Own => own_call(alloc, helpers, *procedure, values.as_slice()),
            Target::Child(_) => Ok(None),
        },
    }
}

/// Sets the flag at a position, if there is one.
fn set(flags: &mut [bool], position: u32)
    ensures { flags.new ≡ slice_set flags.old position true }
{
    let position = position as usize;
    if position < flags.len() {
        flags[position] = true;
    }
}

/// Marks the helper whose body goes where a statement calls it.
fn mark_helper(
    alloc: Global,
    helpers: &[bool],
    inlined: &mut [bool],
    s: &Stmt,
) -> Result<(), Memory>
    ensures { OnOk result (inlined.new
        ≡ marked inlined.old (stmt_helpers (flag_at helpers.now) (stmt_tree s.now))) }
{
    match helper_call(alloc, helpers, s)? {
        Some(found) => {
            set(inlined, found.procedure);
            Ok(())
        }
        None => Ok(()),
    }
}

/// Marks the helpers whose bodies go where statements call them.
fn mark_helpers(
    alloc: Global,
    helpers: &[bool],
    inlined: &mut [bool],
    ss: &[Stmt],
) -> Result<(), Memory>
    ensures { OnOk result (inlined.new ≡ marked inlined.old
        (helpers_by (flag_at helpers.now) (stmts_of_list (map stmt_tree ss.now)))) }
{
    for s in ss {
        mark_helper(alloc, helpers, inlined, s)?;
    }
    Ok(())
}

/// Marks the helpers whose bodies go into a procedure.
fn mark_in(
    alloc: Global,
    helpers: &[bool],
    inlined: &mut [bool],
    q: &Procedure,
) -> Result<(), Memory>
    ensures { OnOk result (inlined.new
        ≡ marked inlined.old (helpers_of (flag_at helpers.now) (procedure_tree q.now))) }
{
    if is_interface(alloc, q.name.bytes())? {
        mark_helpers(alloc, helpers, inlined, q.body.as_slice())
    } else {
        Ok(())
    }
}

/// Marks the helpers whose bodies go where procedures call them.
fn mark_all(
    alloc: Global,
    helpers: &[bool],
    inlined: &mut [bool],
    procedures: &[Procedure],
) -> Result<(), Memory>
    ensures { OnOk result (inlined.new ≡ marked inlined.old
        (flat_map (helpers_of (flag_at helpers.now)) (map procedure_tree procedures.now))) }
{
    for q in procedures {
        mark_in(alloc, helpers, inlined, q)?;
    }
    Ok(())
}

/// By position which procedures are helpers whose bodies go where they are called.
pub(crate) fn inlined_helpers(
    alloc: Global,
    helpers: &[bool],
    procedures: &[Procedure],
) -> Result<Vec<bool>, Memory>
    ensures { IfOk result (λ v. v.items
        ≡ inlined_flags (flag_at helpers.now) (map procedure_tree procedures.now)) }
{
    let mut inlined = vec![in alloc; false; procedures.len()]?;
    mark_all(alloc, helpers, &mut inlined, procedures)?;
    Ok(inlined)
}
