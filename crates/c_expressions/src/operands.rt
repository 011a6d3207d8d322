// Operands.
use c_grammar::{WrittenCond, WrittenExpr};

/// An operand is an expression or a condition.
#[derive(Drop)]
pub(crate) enum Operand<'a> {
    Value(Box<WrittenExpr<'a>>),
    Test(Box<WrittenCond<'a>>),
}
