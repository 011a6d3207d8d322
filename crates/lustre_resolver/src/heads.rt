// The heads of nodes.
ghost use Rattle.std.specs.Prelude.{◌≡◌, ◌&&◌, ◌++◌, flat_map, map, IfOk, OnOk};
ghost use Rattle.std.specs.List.{list_all};
ghost use Rattle.c_syntax.specs.Outputs.{has_name};
ghost use Rattle.c_rules.specs.Gives.{Gives};
ghost use Rattle.c_rules.specs.Resolve.{on_line};
ghost use Rattle.lustre_syntax.specs.Tree.{int};
ghost use Rattle.lustre_syntax.specs.Typing.{same_type};
ghost use Rattle.lustre_grammar.specs.WrittenTrees.{equation_of, node_of};
ghost use Rattle.lustre_rules.specs.Resolve as rules;
ghost use Rattle.lustre_resolver.specs.Scopes.{nodes_of};

use crate::known::Nodes;
use base_core::Memory;
use c_outputs::{NameTable, table_of};
use c_rules::{on_line, unless_fault};
use c_syntax::CKind;
use lustre_grammar::{LusWrittenDecl, LusWrittenEq, LusWrittenNode, ReadLusFault};
use std::alloc::Global;

/// Adds the names that an equation gives to a list of names.
fn add_given<'a>(names: &mut Vec<&'a [u8]>, e: &LusWrittenEq<'a>) -> Result<(), Memory>
    ensures { OnOk result (map (λ x. x.now) names.new.items
        ≡ map (λ x. x.now) names.old.items ++ rules.written_given (equation_of e.now)) }
{
    match e {
        LusWrittenEq::Set { given, .. } => names.push(*given)?,
        LusWrittenEq::Call { given, .. } => names.extend_from_slice(given.as_slice())?,
    }
    Ok(())
}

/// The names that equations give.
fn given_names<'a>(alloc: Global, equations: &[LusWrittenEq<'a>]) -> Result<Vec<&'a [u8]>, Memory>
    ensures { IfOk result (λ names. map (λ x. x.now) names.items
        ≡ flat_map rules.written_given (map equation_of equations.now)) }
{
    let mut names = Vec::new(alloc);
    for e in equations {
        add_given(&mut names, e)?;
    }
    Ok(names)
}

/// Whether each of declared names is in a table.
fn are_named(table: &NameTable, declared: &[LusWrittenDecl]) -> bool
    ensures { result ≡ list_all (λ d. has_name table.now d.name.now) declared.now }
{
    declared.iter().all(|d| table.contains(d.name))
}

/// Whether each output and further name of a node is in a table.
fn outputs_are_named(table: &NameTable, n: &LusWrittenNode) -> bool
    ensures { result ≡ (list_all (λ d. has_name table.now d.name.now) n.now.outputs.items
        && list_all (λ d. has_name table.now d.name.now) n.now.others.items) }
{
    are_named(table, n.outputs.as_slice()) && are_named(table, n.others.as_slice())
}

/// Whether each output and further name of a node has an equation.
fn all_given(alloc: Global, n: &LusWrittenNode) -> Result<bool, Memory>
    ensures { IfOk result (λ all. all ≡ rules.all_given (node_of n.now)) }
{
    let names = given_names(alloc, n.equations.as_slice())?;
    let table = table_of(alloc, names.as_slice())?;
    Ok(outputs_are_named(&table, n))
}

/// Whether a declared name is of `int`.
fn is_int(d: &LusWrittenDecl) -> bool
    ensures { result ≡ same_type d.now.is_bool int }
{
    !d.is_bool
}

/// Whether declared names are of `int`.
fn are_ints(declared: &[LusWrittenDecl]) -> bool
    ensures { result ≡ list_all (λ d. same_type d.is_bool int) declared.now }
{
    declared.iter().all(|d| is_int(d))
}

/// Whether the inputs and the outputs of a node are of `int`.
fn ports_are_ints(n: &LusWrittenNode) -> bool
    ensures { result ≡ (list_all (λ d. same_type d.is_bool int) n.now.inputs.items
        && list_all (λ d. same_type d.is_bool int) n.now.outputs.items) }
{
    are_ints(n.inputs.as_slice()) && are_ints(n.outputs.as_slice())
}

/// The same, where the node is seen as it is written.
fn has_ints(n: &LusWrittenNode) -> bool
    ensures { result ≡ rules.has_ints (node_of n.now) }
{
    ports_are_ints(n)
}

/// Whether a node's head keeps the rules, where it is known whether each output and further name has an equation.
fn check_head(
    earlier: &Nodes,
    is_last: bool,
    all_given: bool,
    n: &LusWrittenNode,
) -> Result<(), CKind>
    requires { all_given ≡ rules.all_given (node_of n.now) }
    ensures { result ≡ rules.resolve_head (nodes_of earlier.now) is_last (node_of n.now) }
{
    unless_fault(!earlier.contains(n.name), CKind::Name)?;
    unless_fault(all_given, CKind::Name)?;
    unless_fault(!is_last || has_ints(n), CKind::TypeRule)
}

/// Checks a node's head: its name is new, nothing lacks an equation, and the last node has `int` inputs and outputs alone.
pub(crate) fn resolve_head(
    alloc: Global,
    earlier: &Nodes,
    is_last: bool,
    n: &LusWrittenNode,
) -> Result<(), ReadLusFault>
    ensures { Gives (λ u. u) result
        (on_line n.now.line (rules.resolve_head (nodes_of earlier.now) is_last (node_of n.now))) }
{
    let all_given = all_given(alloc, n)?;
    on_line(n.line, check_head(earlier, is_last, all_given, n))?;
    Ok(())
}
