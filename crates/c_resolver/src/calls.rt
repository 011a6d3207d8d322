// Stores and calls of procedures.
ghost use Rattle.std.specs.Prelude.{◌≡◌, map, slice_index};
ghost use Rattle.c_syntax.specs.Tree.{exprs_of_list};
ghost use Rattle.c_syntax.specs.Plain.{expr_tree, stmt_tree, param_trees};
ghost use Rattle.c_grammar.specs.Parsing.{arguments_from};
ghost use Rattle.c_rules.specs.Resolve as rules;
ghost use Rattle.c_grammar.specs.Written.{call};
ghost use Rattle.c_grammar.specs.WrittenTrees.{target_of, argument_of};
ghost use Rattle.c_rules.specs.Gives.{Gives};
ghost use Rattle.c_resolver.specs.Scopes.{names_of};

use crate::exprs::resolve_expr;
use crate::fields::{as_array, as_number, as_struct};
use crate::known::Scope;
use base_core::Text;
use c_grammar::{Argument, ReadCFault, WrittenTarget};
use c_rules::{on_line, unless_fault};
use c_syntax::{CKind, CType, Expr, FieldKind, Stmt, Target};
use std::alloc::Global;

/// The most procedures in a chain of calls.
const CHAIN_LIMIT: u64 = 128;

/// Whether two types are one.
pub(crate) fn same_type(a: CType, b: CType) -> bool
    ensures { result ≡ rules.same_type a b }
{
    a == b
}

/// The position of the number field that a store by this cast goes to.
pub(crate) fn resolve_store(scope: &Scope, name: &[u8], cast: CType) -> Result<u32, CKind>
    ensures { result ≡ rules.resolve_store (names_of scope.now) name.now cast }
{
    let (field, kind) = scope.field(name)?;
    let ty = as_number(kind)?;
    unless_fault(same_type(ty, cast), CKind::TypeRule)?;
    Ok(field)
}

/// The position of the array that a store after an index, by this cast, goes to.
pub(crate) fn resolve_item_store(scope: &Scope, name: &[u8], cast: CType) -> Result<u32, CKind>
    ensures { result ≡ rules.resolve_item_store (names_of scope.now) name.now cast }
{
    let (field, kind) = scope.field(name)?;
    let item = as_array(kind)?;
    unless_fault(same_type(item, cast), CKind::TypeRule)?;
    Ok(field)
}

/// The target of a call, with the kind of what is there.
fn resolve_target(scope: &Scope, target: WrittenTarget) -> Result<(Target, FieldKind), CKind>
    ensures { result ≡ rules.resolve_target (names_of scope.now) (target_of target.entry) }
{
    match target {
        WrittenTarget::Own => match scope.of {
            Some(of) => Ok((Target::Own, FieldKind::Struct(of))),
            None => Err(CKind::Name),
        },
        WrittenTarget::Field(name) => {
            let (field, kind) = scope.field(name)?;
            Ok((Target::Child(field), kind))
        }
    }
}

/// Whether the casts of arguments are to the types of parameters.
fn are_cast(params: &[(Text, CType)], values: &[Argument]) -> bool
    ensures { result ≡ rules.same_types (map (λ q. q.type) (param_trees params.now))
        (map (λ a. a.cast) values.now) }
{
    let Some((param, params)) = params.split_first() else {
        return values.is_empty();
    };
    match values.split_first() {
        Some((value, values)) => same_type(param.1, value.cast) && are_cast(params, values),
        None => false,
    }
}

/// The length of the longest chain of calls that begins with a procedure.
pub(crate) fn chain_at(chains: &[u32], k: u32) -> u32
    ensures { result ≡ slice_index chains.now k }
{
    match chains.get(k as usize) {
        Some(length) => *length,
        None => 0,
    }
}

/// The position of a procedure that is called with these casts, and the target.
fn resolve_callee(
    scope: &Scope,
    name: &[u8],
    target: WrittenTarget,
    values: &[Argument],
) -> Result<(u32, Target), CKind>
    ensures { result ≡ rules.resolve_call (names_of scope.now) name.now (target_of target.entry)
        (map (λ a. a.cast) values.now) }
{
    let Some((k, procedure)) = scope.known.procedure(name) else {
        return Err(CKind::Name);
    };
    let (place, kind) = resolve_target(scope, target)?;
    let of = as_struct(kind)?;
    unless_fault(of == procedure.of, CKind::TypeRule)?;
    unless_fault(
        are_cast(procedure.params.as_slice(), values),
        CKind::TypeRule,
    )?;
    let length = u64::from(chain_at(scope.known.chains.as_slice(), k)) + 1;
    unless_fault(length <= CHAIN_LIMIT, CKind::Deep)?;
    Ok((k, place))
}

/// The same, where the arguments are seen as they are written.
fn resolve_call(
    scope: &Scope,
    name: &[u8],
    target: WrittenTarget,
    values: &[Argument],
) -> Result<(u32, Target), CKind>
    ensures { result ≡ rules.resolve_call (names_of scope.now) name.now (target_of target.entry)
        (rules.argument_casts (arguments_from (map argument_of values.now))) }
{
    resolve_callee(scope, name, target, values)
}

/// What the arguments of a call stand for.
fn resolve_arguments(
    alloc: Global,
    scope: &Scope,
    values: &[Argument],
) -> Result<Vec<Expr>, ReadCFault>
    ensures { Gives (λ v. exprs_of_list (map expr_tree v.items)) result
        (rules.resolve_arguments (names_of scope.now)
        (arguments_from (map argument_of values.now))) }
{
    let mut resolved = Vec::new(alloc);
    for value in values {
        resolved.push(resolve_expr(alloc, scope, &value.value)?)?;
    }
    Ok(resolved)
}

/// A call of a procedure, by its name, as it is written on a line.
#[derive(Drop)]
pub(crate) struct WrittenCall<'s, 'a> {
    pub(crate) line: u32,
    pub(crate) name: &'s [u8],
    pub(crate) target: WrittenTarget<'a>,
    pub(crate) values: &'s [Argument<'a>],
}

/// What a call of a procedure stands for.
pub(crate) fn resolve_call_of_procedure(
    alloc: Global,
    scope: &Scope,
    written: &WrittenCall,
) -> Result<Stmt, ReadCFault>
    ensures { Gives stmt_tree result
        (rules.resolve_stmt (names_of scope.now)
        (call written.now.line written.now.name.now (target_of written.now.target)
        (arguments_from (map argument_of written.now.values.now)))) }
{
    let callee = resolve_call(scope, written.name, written.target, written.values);
    let (procedure, target) = on_line(written.line, callee)?;
    let values = resolve_arguments(alloc, scope, written.values)?;
    Ok(Stmt::Call {
        line: written.line,
        procedure,
        target,
        values,
    })
}
