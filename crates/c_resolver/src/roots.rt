// The rules of the root's procedures.
ghost use Rattle.std.specs.Prelude.{◌≡◌, ◌==◌, ◌||◌, ◌&&◌, not, map, length, bytes_eq, codes};
ghost use Rattle.std.specs.List.{list_all};
ghost use Rattle.c_syntax.specs.declared.code.CType.TheVariants.{I64};
ghost use Rattle.c_rules.specs.Resolve as rules;
ghost use Rattle.c_grammar.specs.WrittenTrees.{param_of, procedure_of};

use crate::calls::same_type;
use c_grammar::{WrittenParam, WrittenProcedure};
use c_syntax::CType;

/// Whether a struct is the root's.
pub(crate) fn is_root(name: &[u8]) -> bool
    ensures { result ≡ bytes_eq name.now (codes "root") }
{
    name == b"root".as_slice()
}

/// Whether no parameter is of int64_t.
fn are_narrow_types(params: &[WrittenParam]) -> bool
    ensures { result ≡ list_all (λ q. not (rules.same_type q.ty I64)) params.now }
{
    params.iter().all(|q| !same_type(q.ty, CType::I64))
}

/// The same, where the parameters are seen as they are written.
fn are_narrow(params: &[WrittenParam]) -> bool
    ensures { result ≡ list_all (λ q. not (rules.same_type q.type I64)) (map param_of params.now) }
{
    are_narrow_types(params)
}

/// Whether there are no parameters.
fn are_none(params: &[WrittenParam]) -> bool
    ensures { result ≡ (length (map param_of params.now) == 0) }
{
    params.is_empty()
}

/// Whether a procedure is not `root_start`, or is lawful as such.
fn is_lawful_start(p: &WrittenProcedure) -> bool
    ensures { let q = procedure_of p.now in
        result ≡ (not (bytes_eq q.name (codes "root_start"))
        || (bytes_eq q.of (codes "root") && (length q.params == 0))) }
{
    if p.name != b"root_start".as_slice() {
        return true;
    }
    is_root(p.of) && are_none(p.params.as_slice())
}

/// Whether a procedure is not `root_step`, or is lawful as such.
fn is_lawful_step(p: &WrittenProcedure) -> bool
    ensures { let q = procedure_of p.now in
        result ≡ (not (bytes_eq q.name (codes "root_step"))
        || (bytes_eq q.of (codes "root")
        && list_all (λ x. not (rules.same_type x.type I64)) q.params)) }
{
    if p.name != b"root_step".as_slice() {
        return true;
    }
    is_root(p.of) && are_narrow(p.params.as_slice())
}

/// Whether a procedure is none of the root's two, or is lawful as such.
pub(crate) fn is_lawful_root(p: &WrittenProcedure) -> bool
    ensures { result ≡ rules.is_lawful_root (procedure_of p.now) }
{
    is_lawful_start(p) && is_lawful_step(p)
}
