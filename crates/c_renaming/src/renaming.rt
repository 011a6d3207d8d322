// Code over other leaves, pure functions and procedures, in place.
ghost use Rattle.std.specs.Prelude.{◌≡◌, ℕ, map};
ghost use Rattle.c_syntax.specs.declared.Leaf.{Leaf as LeafValue};
ghost use Rattle.c_syntax.specs.Tree.{exprs_of_list, stmts_of_list};
ghost use Rattle.c_syntax.specs.Plain.{cond_tree, expr_tree, stmt_tree};
ghost use Rattle.c_renaming.specs.Renamed.{renamed_expr, renamed_exprs, renamed_cond, renamed_stmt, renamed_stmts};

use c_syntax::{Cond, Expr, Leaf, Stmt};

/// What each leaf, pure function and procedure is now.
pub trait Renaming {
    /// What a leaf is, by what this is.
    ghost leaf_of: { Self → LeafValue → LeafValue };
    /// The position of a pure function.
    ghost function_of: { Self → ℕ → ℕ };
    /// The position of a procedure.
    ghost procedure_of: { Self → ℕ → ℕ };

    /// What a leaf is now.
    fn leaf(&self, leaf: Leaf) -> Leaf
        ensures { result ≡ Self.leaf_of self.now leaf };

    /// The position that a pure function has now.
    fn function(&self, function: u32) -> u32
        ensures { result ≡ Self.function_of self.now function };

    /// The position that a procedure has now.
    fn procedure(&self, procedure: u32) -> u32
        ensures { result ≡ Self.procedure_of self.now procedure };
}

/// Renames an expression.
#[cycle(expression)]
pub fn rename_expr<R: Renaming>(by: &R, e: &mut Expr)
    ensures { expr_tree e.new
        ≡ renamed_expr (R.leaf_of by.now) (R.function_of by.now) (R.procedure_of by.now) (expr_tree e.old) }
{
    match e {
        Expr::Literal(_) => {}
        Expr::Neg(operand) => rename_expr(by, operand),
        Expr::Read(leaf) => *leaf = by.leaf(*leaf),
        Expr::Binary(_, left, right) => {
            rename_expr(by, left);
            rename_expr(by, right);
        }
        Expr::Pick(test, on_true, on_false) => {
            rename_cond(by, test);
            rename_expr(by, on_true);
            rename_expr(by, on_false);
        }
        Expr::Pure(function, values) => {
            *function = by.function(*function);
            rename_values(by, values);
        }
        Expr::At(_, index) => rename_expr(by, index),
    }
}

/// Renames the expressions of a list.
#[cycle(expression)]
fn rename_values<R: Renaming>(by: &R, values: &mut Vec<Expr>)
    ensures { exprs_of_list (map expr_tree values.new.items)
        ≡ renamed_exprs (R.leaf_of by.now) (R.function_of by.now) (R.procedure_of by.now)
        (exprs_of_list (map expr_tree values.old.items)) }
{
    rename_exprs(by, values);
}

/// Renames expressions.
#[cycle(expression)]
fn rename_exprs<R: Renaming>(by: &R, es: &mut [Expr])
    ensures { exprs_of_list (map expr_tree es.new)
        ≡ renamed_exprs (R.leaf_of by.now) (R.function_of by.now) (R.procedure_of by.now)
        (exprs_of_list (map expr_tree es.old)) }
{
    for e in es.iter_mut() {
        rename_expr(by, e);
    }
}

/// Renames a condition.
#[cycle(expression)]
fn rename_cond<R: Renaming>(by: &R, test: &mut Cond)
    ensures { cond_tree test.new
        ≡ renamed_cond (R.leaf_of by.now) (R.function_of by.now) (R.procedure_of by.now) (cond_tree test.old) }
{
    match test {
        Cond::Compare(_, left, right) => {
            rename_expr(by, left);
            rename_expr(by, right);
        }
        Cond::Both(left, right) => {
            rename_cond(by, left);
            rename_cond(by, right);
        }
        Cond::Either(left, right) => {
            rename_cond(by, left);
            rename_cond(by, right);
        }
        Cond::Not(operand) => rename_cond(by, operand),
    }
}

/// Renames a statement.
#[cycle(statement)]
pub fn rename_stmt<R: Renaming>(by: &R, s: &mut Stmt)
    ensures { stmt_tree s.new
        ≡ renamed_stmt (R.leaf_of by.now) (R.function_of by.now) (R.procedure_of by.now) (stmt_tree s.old) }
{
    match s {
        Stmt::Set { value, .. } => rename_expr(by, value),
        Stmt::SetAt { index, value, .. } => {
            rename_expr(by, index);
            rename_expr(by, value);
        }
        Stmt::If {
            line,
            test,
            yes,
            no,
        } => {
            // The line stays; it is read so that the proof sees it.
            let _line = *line;
            rename_cond(by, test);
            rename_body(by, yes);
            rename_body(by, no);
        }
        Stmt::Call {
            procedure,
            values,
            ..
        } => {
            *procedure = by.procedure(*procedure);
            rename_values(by, values);
        }
    }
}

/// Renames the statements of a body.
#[cycle(statement)]
pub fn rename_body<R: Renaming>(by: &R, body: &mut Vec<Stmt>)
    ensures { stmts_of_list (map stmt_tree body.new.items)
        ≡ renamed_stmts (R.leaf_of by.now) (R.function_of by.now) (R.procedure_of by.now)
        (stmts_of_list (map stmt_tree body.old.items)) }
{
    rename_stmts(by, body);
}

/// Renames statements.
#[cycle(statement)]
fn rename_stmts<R: Renaming>(by: &R, ss: &mut [Stmt])
    ensures { stmts_of_list (map stmt_tree ss.new)
        ≡ renamed_stmts (R.leaf_of by.now) (R.function_of by.now) (R.procedure_of by.now)
        (stmts_of_list (map stmt_tree ss.old)) }
{
    for s in ss.iter_mut() {
        rename_stmt(by, s);
    }
}
