// Calls and choices of their parts, in lists.
ghost use Rattle.std.specs.Prelude.{◌≡◌, map};
ghost use Rattle.c_syntax.specs.Tree.{branch, exprs_of_list, pure, stmts_of_list};
ghost use Rattle.c_syntax.specs.Plain.{cond_tree, expr_tree, stmt_tree};

use c_syntax::{Cond, Expr, Stmt};

/// A call of a pure function.
pub fn call_of_pure(function: u32, values: Vec<Expr>) -> Expr
    ensures { expr_tree result ≡ pure function (exprs_of_list (map expr_tree values.items)) }
{
    Expr::Pure(function, values)
}

/// A choice.
pub fn choice(line: u32, test: Cond, yes: Vec<Stmt>, no: Vec<Stmt>) -> Stmt
    ensures { stmt_tree result
        ≡ branch line (cond_tree test) (stmts_of_list (map stmt_tree yes.items))
        (stmts_of_list (map stmt_tree no.items)) }
{
    Stmt::If {
        line,
        test,
        yes,
        no,
    }
}
