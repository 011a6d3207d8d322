// Expressions and equations.
ghost use Rattle.std.specs.Prelude.{◌≡◌, ◌++◌, map, codes, OnOk};
ghost use Rattle.c_syntax.specs.Names.{name_at};
ghost use Rattle.lustre_syntax.specs.Tree as tree;
ghost use Rattle.lustre_syntax.specs.Plain.{expr_tree, equation_tree};
ghost use Rattle.lustre_grammar.specs.Grammar.{truth_text, op_text};
ghost use Rattle.lustre_printer.specs.Printing.{number_bytes, expr_bytes, parted, equation_bytes};
ghost use Rattle.lustre_printer.specs.Scopes.{names_in, nodes_in};

use crate::printing::names::Scope;
use crate::printing::push;
use lustre_syntax::{LusEq, LusExpr, LusOp};
use std::alloc::{AllocError, Global};

fn truth_text(value: bool) -> &'static [u8]
    ensures { result.now ≡ truth_text value }
{
    if value { b"true" } else { b"false" }
}

fn op_text(op: LusOp) -> &'static [u8]
    ensures { result.now ≡ op_text op }
{
    match op {
        LusOp::Add => b"+",
        LusOp::Sub => b"-",
        LusOp::Mul => b"*",
        LusOp::Div => b"div",
        LusOp::Mod => b"mod",
        LusOp::Eq => b"=",
        LusOp::Ne => b"<>",
        LusOp::Lt => b"<",
        LusOp::Le => b"<=",
        LusOp::Gt => b">",
        LusOp::Ge => b">=",
        LusOp::And => b"and",
        LusOp::Or => b"or",
    }
}

fn print_number(alloc: Global, out: &mut Vec<u8>, value: i64) -> Result<(), AllocError>
    ensures { OnOk result (out.new.items ≡ out.old.items ++ number_bytes value) }
{
    let digits = value.unsigned_abs().to_string(alloc)?;
    push(out, digits.as_bytes())
}

// An expression, and a text after it.
#[cycle(expression)]
fn print_then(
    alloc: Global,
    out: &mut Vec<u8>,
    scope: &Scope,
    e: &LusExpr,
    after: &[u8],
) -> Result<(), AllocError>
    ensures { OnOk result (out.new.items
        ≡ out.old.items ++ expr_bytes (names_in scope.now) (expr_tree e.now) ++ after.now) }
{
    print_expr(alloc, out, scope, e)?;
    push(out, after)
}

#[cycle(expression)]
fn print_expr(
    alloc: Global,
    out: &mut Vec<u8>,
    scope: &Scope,
    e: &LusExpr,
) -> Result<(), AllocError>
    ensures { OnOk result (out.new.items
        ≡ out.old.items ++ expr_bytes (names_in scope.now) (expr_tree e.now)) }
{
    match e {
        LusExpr::Number(value) => print_number(alloc, out, *value),
        LusExpr::Truth(value) => push(out, truth_text(*value)),
        LusExpr::Name(k) => push(out, scope.name(*k)),
        LusExpr::Neg(operand) => {
            push(out, b"(- ")?;
            print_then(alloc, out, scope, operand, b")")
        }
        LusExpr::Not(operand) => {
            push(out, b"(not ")?;
            print_then(alloc, out, scope, operand, b")")
        }
        LusExpr::Two(op, left, right) => {
            push(out, b"(")?;
            print_then(alloc, out, scope, left, b" ")?;
            push(out, op_text(*op))?;
            push(out, b" ")?;
            print_then(alloc, out, scope, right, b")")
        }
        LusExpr::If(test, on_true, on_false) => {
            push(out, b"(if ")?;
            print_then(alloc, out, scope, test, b" then ")?;
            print_then(alloc, out, scope, on_true, b" else ")?;
            print_then(alloc, out, scope, on_false, b")")
        }
        LusExpr::Arrow(first, later) => {
            push(out, b"(")?;
            print_then(alloc, out, scope, first, b" -> ")?;
            print_then(alloc, out, scope, later, b")")
        }
        LusExpr::Pre(k) => {
            push(out, b"(pre ")?;
            push(out, scope.name(*k))?;
            push(out, b")")
        }
    }
}

// Names with `, ` between each two.
fn print_given(out: &mut Vec<u8>, scope: &Scope, given: &[u32]) -> Result<(), AllocError>
    ensures { OnOk result (out.new.items
        ≡ out.old.items ++ parted (codes ", ") (map (name_at (names_in scope.now)) given.now)) }
{
    let Some((first, later)) = given.split_first() else {
        return Ok(());
    };
    push(out, scope.name(*first))?;
    for k in later {
        push(out, b", ")?;
        push(out, scope.name(*k))?;
    }
    Ok(())
}

// Expressions with `, ` between each two.
fn print_values(
    alloc: Global,
    out: &mut Vec<u8>,
    scope: &Scope,
    values: &[LusExpr],
) -> Result<(), AllocError>
    ensures { OnOk result (out.new.items ≡ out.old.items
        ++ parted (codes ", ") (map (expr_bytes (names_in scope.now)) (map expr_tree values.now))) }
{
    let Some((first, later)) = values.split_first() else {
        return Ok(());
    };
    print_expr(alloc, out, scope, first)?;
    for e in later {
        push(out, b", ")?;
        print_expr(alloc, out, scope, e)?;
    }
    Ok(())
}

fn print_set(
    alloc: Global,
    out: &mut Vec<u8>,
    scope: &Scope,
    given: u32,
    value: &LusExpr,
) -> Result<(), AllocError>
    ensures { OnOk result (out.new.items ≡ out.old.items
        ++ equation_bytes (nodes_in scope.now) (names_in scope.now)
        (tree.set 0 given (expr_tree value.now))) }
{
    push(out, scope.name(given))?;
    push(out, b" = ")?;
    print_expr(alloc, out, scope, value)?;
    push(out, b";\n")
}

/// A call of a node: the places of the names that it gives, the node's position, and its arguments.
#[derive(Drop)]
struct Call<'a> {
    given: &'a [u32],
    callee: u32,
    values: &'a [LusExpr],
}

fn print_call(
    alloc: Global,
    out: &mut Vec<u8>,
    scope: &Scope,
    call: &Call,
) -> Result<(), AllocError>
    ensures { OnOk result (out.new.items ≡ out.old.items
        ++ equation_bytes (nodes_in scope.now) (names_in scope.now)
        (tree.call 0 call.now.given.now call.now.callee (map expr_tree call.now.values.now))) }
{
    print_given(out, scope, call.given)?;
    push(out, b" = call ")?;
    push(out, scope.node(call.callee))?;
    push(out, b"(")?;
    print_values(alloc, out, scope, call.values)?;
    push(out, b");\n")
}

pub(super) fn print_equation(
    alloc: Global,
    out: &mut Vec<u8>,
    scope: &Scope,
    e: &LusEq,
) -> Result<(), AllocError>
    ensures { OnOk result (out.new.items ≡ out.old.items
        ++ equation_bytes (nodes_in scope.now) (names_in scope.now) (equation_tree e.now)) }
{
    match e {
        LusEq::Set { name, value, .. } => print_set(alloc, out, scope, *name, value),
        LusEq::Call {
            names,
            node,
            values,
            ..
        } => {
            let call = Call {
                given: names.wires(),
                callee: *node,
                values,
            };
            print_call(alloc, out, scope, &call)
        }
    }
}
