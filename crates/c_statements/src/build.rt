// Statements of their parts.
ghost use Rattle.std.specs.Prelude.{◌≡◌, map};
ghost use Rattle.c_grammar.specs.Written as written;
ghost use Rattle.c_grammar.specs.Parsing.{stmts_from};
ghost use Rattle.c_grammar.specs.WrittenTrees.{expr_of, stmt_of, choice_of};
ghost use Rattle.c_expressions.specs.Operands.{boxed_expr, boxed_cond};

use c_grammar::{Argument, WrittenCond, WrittenExpr, WrittenStmt};

pub(crate) fn store<'a>(line: u32, field: &'a [u8], stored: Argument<'a>) -> WrittenStmt<'a>
    ensures { stmt_of result
        ≡ written.assign line field.now stored.entry.cast (expr_of stored.entry.value) }
{
    let Argument { cast, value } = stored;
    WrittenStmt::Set {
        line,
        field,
        cast,
        value,
    }
}

pub(crate) fn store_at<'a>(
    line: u32,
    field: &'a [u8],
    index: Box<WrittenExpr<'a>>,
    stored: Argument<'a>,
) -> WrittenStmt<'a>
    ensures { stmt_of result
        ≡ written.assign_at line field.now (boxed_expr index.entry) stored.entry.cast
        (expr_of stored.entry.value) }
{
    let Argument { cast, value } = stored;
    WrittenStmt::SetAt {
        line,
        field,
        index: Box::into_inner(index),
        cast,
        value,
    }
}

pub(crate) fn choice<'a>(
    line: u32,
    test: Box<WrittenCond<'a>>,
    yes: Vec<WrittenStmt<'a>>,
    has_else: bool,
    no: Vec<WrittenStmt<'a>>,
) -> WrittenStmt<'a>
    ensures { stmt_of result
        ≡ choice_of line (boxed_cond test.entry) (stmts_from (map stmt_of yes.entry.items)) has_else
        (stmts_from (map stmt_of no.entry.items)) }
{
    WrittenStmt::If {
        line,
        test: Box::into_inner(test),
        yes,
        has_else,
        no,
    }
}
