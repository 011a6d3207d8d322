// Expressions and conditions of their parts.
ghost use Rattle.std.specs.Prelude.{◌≡◌, IfOk, map};
ghost use Rattle.c_grammar.specs.Written as written;
ghost use Rattle.c_grammar.specs.Parsing.{exprs_from};
ghost use Rattle.c_grammar.specs.WrittenTrees.{leaf_of, expr_of};
ghost use Rattle.c_expressions.specs.Operands.{boxed_expr, boxed_cond};

use base_core::{Compare, Memory};
use c_grammar::{Number, WrittenCond, WrittenExpr, WrittenLeaf};
use c_syntax::BinOp;
use std::alloc::Global;

fn box_of_expr<'a>(alloc: Global, e: WrittenExpr<'a>) -> Result<Box<WrittenExpr<'a>>, Memory>
    ensures { IfOk result (λ b. b.value ≡ e.entry) }
{
    Ok(Box::new(alloc, e)?)
}

fn box_of_cond<'a>(alloc: Global, test: WrittenCond<'a>) -> Result<Box<WrittenCond<'a>>, Memory>
    ensures { IfOk result (λ b. b.value ≡ test.entry) }
{
    Ok(Box::new(alloc, test)?)
}

pub(crate) fn literal<'a>(alloc: Global, number: Number) -> Result<Box<WrittenExpr<'a>>, Memory>
    ensures { IfOk result (λ e. boxed_expr e ≡ written.literal number.value) }
{
    box_of_expr(alloc, WrittenExpr::Literal(number))
}

pub(crate) fn read<'a>(
    alloc: Global,
    line: u32,
    leaf: WrittenLeaf<'a>,
) -> Result<Box<WrittenExpr<'a>>, Memory>
    ensures { IfOk result (λ e. boxed_expr e ≡ written.read line (leaf_of leaf.entry)) }
{
    box_of_expr(alloc, WrittenExpr::Read { line, leaf })
}

pub(crate) fn item<'a>(
    alloc: Global,
    line: u32,
    field: &'a [u8],
    index: Box<WrittenExpr<'a>>,
) -> Result<Box<WrittenExpr<'a>>, Memory>
    ensures { IfOk result (λ e. boxed_expr e
        ≡ written.item line field.now (boxed_expr index.entry)) }
{
    box_of_expr(alloc, WrittenExpr::Item { line, field, index })
}

pub(crate) fn negative<'a>(
    alloc: Global,
    operand: Box<WrittenExpr<'a>>,
) -> Result<Box<WrittenExpr<'a>>, Memory>
    ensures { IfOk result (λ e. boxed_expr e ≡ written.neg (boxed_expr operand.entry)) }
{
    box_of_expr(alloc, WrittenExpr::Neg(operand))
}

pub(crate) fn binary<'a>(
    alloc: Global,
    op: BinOp,
    left: Box<WrittenExpr<'a>>,
    right: Box<WrittenExpr<'a>>,
) -> Result<Box<WrittenExpr<'a>>, Memory>
    ensures { IfOk result (λ e. boxed_expr e
        ≡ written.binary op (boxed_expr left.entry) (boxed_expr right.entry)) }
{
    box_of_expr(alloc, WrittenExpr::Binary(op, left, right))
}

pub(crate) fn pick<'a>(
    alloc: Global,
    test: Box<WrittenCond<'a>>,
    on_true: Box<WrittenExpr<'a>>,
    on_false: Box<WrittenExpr<'a>>,
) -> Result<Box<WrittenExpr<'a>>, Memory>
    ensures { IfOk result (λ e. boxed_expr e
        ≡ written.pick (boxed_cond test.entry) (boxed_expr on_true.entry)
        (boxed_expr on_false.entry)) }
{
    box_of_expr(alloc, WrittenExpr::Pick(test, on_true, on_false))
}

fn call_of_pure<'a>(line: u32, function: &'a [u8], values: Vec<WrittenExpr<'a>>) -> WrittenExpr<'a>
    ensures { expr_of result
        ≡ written.pure line function.now (exprs_from (map expr_of values.entry.items)) }
{
    WrittenExpr::Pure {
        line,
        function,
        values,
    }
}

pub(crate) fn pure<'a>(
    alloc: Global,
    line: u32,
    function: &'a [u8],
    values: Vec<WrittenExpr<'a>>,
) -> Result<Box<WrittenExpr<'a>>, Memory>
    ensures { IfOk result (λ e. boxed_expr e
        ≡ written.pure line function.now (exprs_from (map expr_of values.entry.items))) }
{
    box_of_expr(alloc, call_of_pure(line, function, values))
}

pub(crate) fn compare<'a>(
    alloc: Global,
    how: Compare,
    left: Box<WrittenExpr<'a>>,
    right: Box<WrittenExpr<'a>>,
) -> Result<Box<WrittenCond<'a>>, Memory>
    ensures { IfOk result (λ c. boxed_cond c
        ≡ written.compare how (boxed_expr left.entry) (boxed_expr right.entry)) }
{
    let compare = WrittenCond::Compare(how, Box::into_inner(left), Box::into_inner(right));
    box_of_cond(alloc, compare)
}

pub(crate) fn both<'a>(
    alloc: Global,
    left: Box<WrittenCond<'a>>,
    right: Box<WrittenCond<'a>>,
) -> Result<Box<WrittenCond<'a>>, Memory>
    ensures { IfOk result (λ c. boxed_cond c
        ≡ written.both (boxed_cond left.entry) (boxed_cond right.entry)) }
{
    box_of_cond(alloc, WrittenCond::Both(left, right))
}

pub(crate) fn either<'a>(
    alloc: Global,
    left: Box<WrittenCond<'a>>,
    right: Box<WrittenCond<'a>>,
) -> Result<Box<WrittenCond<'a>>, Memory>
    ensures { IfOk result (λ c. boxed_cond c
        ≡ written.either (boxed_cond left.entry) (boxed_cond right.entry)) }
{
    box_of_cond(alloc, WrittenCond::Either(left, right))
}

pub(crate) fn negated<'a>(
    alloc: Global,
    operand: Box<WrittenCond<'a>>,
) -> Result<Box<WrittenCond<'a>>, Memory>
    ensures { IfOk result (λ c. boxed_cond c ≡ written.negated (boxed_cond operand.entry)) }
{
    box_of_cond(alloc, WrittenCond::Not(operand))
}
