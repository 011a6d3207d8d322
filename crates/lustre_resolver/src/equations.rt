// Equations.
ghost use Rattle.std.specs.Prelude.{◌≡◌, ◌++◌, [], map, IfOk};
ghost use Rattle.c_rules.specs.Gives.{Gives};
ghost use Rattle.lustre_syntax.specs.Plain.{equation_tree};
ghost use Rattle.lustre_syntax.specs.Tree.{given_by};
ghost use Rattle.lustre_grammar.specs.Written.{set, call};
ghost use Rattle.lustre_grammar.specs.WrittenTrees.{expr_of, equation_of};
ghost use Rattle.lustre_rules.specs.Resolve as rules;
ghost use Rattle.lustre_resolver.specs.Scopes.{scope_of};

use crate::calls::resolve_callee;
use crate::exprs::{resolve_expr, resolve_exprs};
use crate::given::Given;
use crate::known::Place;
use crate::typing::fits;
use base_core::Wires;
use c_rules::{on_line, unless_fault};
use c_syntax::CKind;
use lustre_grammar::{LusWrittenEq, LusWrittenExpr, ReadLusFault};
use lustre_syntax::LusEq;
use std::alloc::Global;

/// The equation of one name, as it is written on a line.
#[derive(Drop)]
struct WrittenSet<'s, 'a> {
    line: u32,
    name: &'s [u8],
    value: &'s LusWrittenExpr<'a>,
}

/// The equation of the outputs of a call, as it is written on a line.
#[derive(Drop)]
struct WrittenCall<'s, 'a> {
    line: u32,
    names: &'s [&'a [u8]],
    callee: &'s [u8],
    values: &'s [LusWrittenExpr<'a>],
}

/// What the equation of one name stands for.
fn resolve_set(
    alloc: Global,
    place: &Place,
    given: &mut Given,
    written: &WrittenSet,
) -> Result<LusEq, ReadLusFault>
    ensures resolved { Gives equation_tree result
        (rules.resolve_equation (scope_of place.now given.old.places.keys)
        (set written.now.line written.now.name.now (expr_of written.now.value.now))) }
    ensures taken { IfOk result (λ e. given.new.places.keys
        ≡ given.old.places.keys ++ given_by (equation_tree e)) }
{
    let line = written.line;
    let name = given.take(place, line, written.name)?;
    let agrees = fits(place.names, written.value, place.names.type_at(name));
    on_line(line, unless_fault(agrees, CKind::TypeRule))?;
    let value = resolve_expr(alloc, place.names, written.value)?;
    Ok(LusEq::Set { line, name, value })
}

/// What a call stands for.
fn resolve_call(
    alloc: Global,
    place: &Place,
    given: &mut Given,
    written: &WrittenCall,
) -> Result<LusEq, ReadLusFault>
    ensures resolved { Gives equation_tree result
        (rules.resolve_equation (scope_of place.now given.old.places.keys)
        (call written.now.line (map (λ name. name.now) written.now.names.now)
        written.now.callee.now (map expr_of written.now.values.now))) }
    ensures taken { IfOk result (λ e. given.new.places.keys
        ≡ given.old.places.keys ++ given_by (equation_tree e)) }
{
    let line = written.line;
    let names = given.take_all(alloc, place, line, written.names)?;
    let callee = resolve_callee(place, names.as_slice(), written.callee, written.values);
    let node = on_line(line, callee)?;
    let values = resolve_exprs(alloc, place.names, written.values)?;
    Ok(LusEq::Call {
        line,
        names: Wires::new(names),
        node,
        values,
    })
}

/// What an equation stands for.
fn resolve_equation(
    alloc: Global,
    place: &Place,
    given: &mut Given,
    e: &LusWrittenEq,
) -> Result<LusEq, ReadLusFault>
    ensures resolved { Gives equation_tree result
        (rules.resolve_equation (scope_of place.now given.old.places.keys) (equation_of e.now)) }
    ensures taken { IfOk result (λ q. given.new.places.keys
        ≡ given.old.places.keys ++ given_by (equation_tree q)) }
{
    match e {
        LusWrittenEq::Set {
            line,
            given: name,
            value,
        } => {
            let written = WrittenSet {
                line: *line,
                name,
                value,
            };
            resolve_set(alloc, place, given, &written)
        }
        LusWrittenEq::Call {
            line,
            given: names,
            callee,
            values,
        } => {
            let written = WrittenCall {
                line: *line,
                names: names.as_slice(),
                callee,
                values: values.as_slice(),
            };
            resolve_call(alloc, place, given, &written)
        }
    }
}

/// What the equations of a node stand for.
pub(crate) fn resolve_equations(
    alloc: Global,
    place: &Place,
    equations: &[LusWrittenEq],
) -> Result<Vec<LusEq>, ReadLusFault>
    ensures { Gives (λ v. map equation_tree v.items) result
        (rules.resolve_equations (scope_of place.now []) (map equation_of equations.now)) }
{
    let mut given = Given::new(alloc);
    let mut resolved = Vec::new(alloc);
    for e in equations {
        resolved.push(resolve_equation(alloc, place, &mut given, e)?)?;
    }
    Ok(resolved)
}
