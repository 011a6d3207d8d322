// Expressions, conditions and statements.
ghost use Rattle.std.specs.Prelude.{◌≡◌, ◌++◌, map, codes, OnOk};
ghost use Rattle.c_grammar.specs.Grammar.{op_text, compare_text, type_text};
ghost use Rattle.c_syntax.specs.Tree.{pure, read, assign, assign_at, call, exprs_of_list, stmts_of_list};
ghost use Rattle.c_syntax.specs.Plain.{expr_tree, cond_tree, stmt_tree};
ghost use Rattle.c_printer.specs.Lines.{ended, margin_bytes};
ghost use Rattle.c_printer.specs.Printing.{literal_bytes, expr_bytes, exprs_bytes, later_exprs_bytes, cond_bytes, deeper, target_bytes, arguments_bytes, stored_bytes, store_bytes, item_store_bytes, call_bytes, target_note, noted_stmt_bytes, noted_stmts_bytes, noted_else_bytes};
ghost use Rattle.c_printer.specs.VocabularyOf.{scope_notes, vocabulary_of};

use crate::notes::note_at;
use crate::printing::lines::{end_line, put_margin};
use crate::printing::names::{
    Scope, field_name, field_type, procedure_name, procedure_params, pure_name,
};
use crate::printing::put;
use base_core::{Compare, Text};
use c_syntax::{BinOp, CType, Cond, Expr, Leaf, Stmt, Target};
use itoa::Buffer;
use std::alloc::{AllocError, Global};

pub(super) fn type_text(of: CType) -> &'static [u8]
    ensures { result.now ≡ type_text of }
{
    match of {
        CType::I8 => b"int8_t",
        CType::U8 => b"uint8_t",
        CType::I16 => b"int16_t",
        CType::U16 => b"uint16_t",
        CType::I32 => b"int32_t",
        CType::U32 => b"uint32_t",
        CType::I64 => b"int64_t",
    }
}

fn op_text(op: BinOp) -> &'static [u8]
    ensures { result.now ≡ op_text op }
{
    match op {
        BinOp::Add => b"+",
        BinOp::Sub => b"-",
        BinOp::Mul => b"*",
        BinOp::Div => b"/",
        BinOp::Rem => b"%",
    }
}

fn compare_text(how: Compare) -> &'static [u8]
    ensures { result.now ≡ compare_text how }
{
    match how {
        Compare::Eq => b"==",
        Compare::Ne => b"!=",
        Compare::Lt => b"<",
        Compare::Le => b"<=",
        Compare::Ge => b">=",
        Compare::Gt => b">",
    }
}

// Appends what is read of a leaf, with its cast.
fn put_read(out: &mut Vec<u8>, scope: &Scope, leaf: Leaf) -> Result<(), AllocError>
    ensures { OnOk result (out.new.items
        ≡ out.old.items ++ expr_bytes (vocabulary_of scope.now) (read leaf)) }
{
    match leaf {
        Leaf::Param(k) => {
            put(out, b"(int64_t)")?;
            put(out, scope.param_name(k))
        }
        Leaf::Own(f) => {
            put(out, b"(int64_t)s->")?;
            put(out, field_name(scope.fields, f))
        }
        Leaf::Child(f, g) => {
            put(out, b"(int64_t)s->")?;
            put(out, field_name(scope.fields, f))?;
            put(out, b".")?;
            put(out, field_name(scope.inner_fields(f), g))
        }
    }
}

fn put_literal(out: &mut Vec<u8>, value: i64) -> Result<(), AllocError>
    ensures { OnOk result (out.new.items ≡ out.old.items ++ literal_bytes value) }
{
    let mut digits = Buffer::new();
    put(out, b"INT64_C(")?;
    put(out, digits.format(value.unsigned_abs()).as_bytes())?;
    put(out, b")")
}

#[cycle(expression)]
pub(super) fn put_expr(out: &mut Vec<u8>, scope: &Scope, e: &Expr) -> Result<(), AllocError>
    ensures { OnOk result (out.new.items
        ≡ out.old.items ++ expr_bytes (vocabulary_of scope.now) (expr_tree e.now)) }
{
    match e {
        Expr::Literal(value) => put_literal(out, *value),
        Expr::Neg(operand) => {
            put(out, b"(-")?;
            put_expr(out, scope, operand)?;
            put(out, b")")
        }
        Expr::Read(leaf) => put_read(out, scope, *leaf),
        Expr::Binary(op, left, right) => {
            put(out, b"(")?;
            put_expr(out, scope, left)?;
            put(out, b" ")?;
            put(out, op_text(*op))?;
            put(out, b" ")?;
            put_expr(out, scope, right)?;
            put(out, b")")
        }
        Expr::Pick(test, on_true, on_false) => {
            put(out, b"(")?;
            put_cond(out, scope, test)?;
            put(out, b" ? ")?;
            put_expr(out, scope, on_true)?;
            put(out, b" : ")?;
            put_expr(out, scope, on_false)?;
            put(out, b")")
        }
        Expr::Pure(k, values) => put_pure_call(out, scope, *k, values),
        Expr::At(field, index) => {
            put(out, b"(int64_t)s->")?;
            put(out, field_name(scope.fields, *field))?;
            put(out, b"[")?;
            put_expr(out, scope, index)?;
            put(out, b"]")
        }
    }
}

#[cycle(expression)]
fn put_pure_call(
    out: &mut Vec<u8>,
    scope: &Scope,
    k: u32,
    values: &[Expr],
) -> Result<(), AllocError>
    ensures { OnOk result (out.new.items
        ≡ out.old.items ++ expr_bytes (vocabulary_of scope.now)
        (pure k (exprs_of_list (map expr_tree values.now)))) }
{
    put(out, pure_name(scope.program, k))?;
    put(out, b"(")?;
    put_exprs(out, scope, values)?;
    put(out, b")")
}

// Expressions with `, ` between each two.
#[cycle(expression)]
fn put_exprs(out: &mut Vec<u8>, scope: &Scope, es: &[Expr]) -> Result<(), AllocError>
    ensures { OnOk result (out.new.items
        ≡ out.old.items ++ exprs_bytes (vocabulary_of scope.now)
        (exprs_of_list (map expr_tree es.now))) }
{
    let Some((first, later)) = es.split_first() else {
        return Ok(());
    };
    put_expr(out, scope, first)?;
    for e in later {
        put(out, b", ")?;
        put_expr(out, scope, e)?;
    }
    Ok(())
}

#[cycle(expression)]
fn put_cond(out: &mut Vec<u8>, scope: &Scope, test: &Cond) -> Result<(), AllocError>
    ensures { OnOk result (out.new.items
        ≡ out.old.items ++ cond_bytes (vocabulary_of scope.now) (cond_tree test.now)) }
{
    match test {
        Cond::Compare(how, left, right) => {
            put(out, b"(")?;
            put_expr(out, scope, left)?;
            put(out, b" ")?;
            put(out, compare_text(*how))?;
            put(out, b" ")?;
            put_expr(out, scope, right)?;
            put(out, b")")
        }
        Cond::Both(left, right) => {
            put(out, b"(")?;
            put_cond(out, scope, left)?;
            put(out, b" && ")?;
            put_cond(out, scope, right)?;
            put(out, b")")
        }
        Cond::Either(left, right) => {
            put(out, b"(")?;
            put_cond(out, scope, left)?;
            put(out, b" || ")?;
            put_cond(out, scope, right)?;
            put(out, b")")
        }
        Cond::Not(operand) => {
            put(out, b"(!")?;
            put_cond(out, scope, operand)?;
            put(out, b")")
        }
    }
}

// The margin in a block.
fn deeper(margin: usize) -> usize
    ensures { result ≡ deeper margin }
{
    margin.saturating_add(4).min(80)
}

fn put_target(out: &mut Vec<u8>, scope: &Scope, target: Target) -> Result<(), AllocError>
    ensures { OnOk result (out.new.items
        ≡ out.old.items ++ target_bytes (vocabulary_of scope.now) target) }
{
    match target {
        Target::Own => put(out, b"s"),
        Target::Child(f) => {
            put(out, b"&s->")?;
            put(out, field_name(scope.fields, f))
        }
    }
}

// The arguments of a call of a procedure with these parameters, each after `, ` and with its cast.
fn put_arguments(
    out: &mut Vec<u8>,
    scope: &Scope,
    params: &[(Text, CType)],
    values: &[Expr],
) -> Result<(), AllocError>
    ensures { OnOk result (out.new.items
        ≡ out.old.items ++ arguments_bytes (vocabulary_of scope.now) (map (λ q. q.1) params.now)
        (exprs_of_list (map expr_tree values.now))) }
{
    for (param, value) in params.iter().zip(values) {
        put(out, b", (")?;
        put(out, type_text(param.1))?;
        put(out, b")")?;
        put_expr(out, scope, value)?;
    }
    Ok(())
}

fn put_call(
    out: &mut Vec<u8>,
    scope: &Scope,
    procedure: u32,
    target: Target,
    values: &[Expr],
) -> Result<(), AllocError>
    ensures { OnOk result (out.new.items ≡ out.old.items
        ++ call_bytes (vocabulary_of scope.now) procedure target
        (exprs_of_list (map expr_tree values.now))) }
{
    put(out, procedure_name(scope.program, procedure))?;
    put(out, b"(")?;
    put_target(out, scope, target)?;
    put_arguments(
        out,
        scope,
        procedure_params(scope.program, procedure),
        values,
    )?;
    put(out, b");")
}

fn put_store(out: &mut Vec<u8>, scope: &Scope, field: u32, value: &Expr) -> Result<(), AllocError>
    ensures { OnOk result (out.new.items ≡ out.old.items
        ++ store_bytes (vocabulary_of scope.now) field (expr_tree value.now)) }
{
    put(out, b"s->")?;
    put(out, field_name(scope.fields, field))?;
    put(out, b" = (")?;
    put_stored(out, scope, field, value)
}

fn put_item_store(
    out: &mut Vec<u8>,
    scope: &Scope,
    field: u32,
    index: &Expr,
    value: &Expr,
) -> Result<(), AllocError>
    ensures { OnOk result (out.new.items ≡ out.old.items
        ++ item_store_bytes (vocabulary_of scope.now) field (expr_tree index.now)
        (expr_tree value.now)) }
{
    put(out, b"s->")?;
    put(out, field_name(scope.fields, field))?;
    put(out, b"[")?;
    put_expr(out, scope, index)?;
    put(out, b"] = (")?;
    put_stored(out, scope, field, value)
}

// What is stored, from the type in its cast on.
fn put_stored(out: &mut Vec<u8>, scope: &Scope, field: u32, value: &Expr) -> Result<(), AllocError>
    ensures { OnOk result (out.new.items ≡ out.old.items
        ++ stored_bytes (vocabulary_of scope.now) field (expr_tree value.now)) }
{
    put(out, type_text(field_type(scope.fields, field)))?;
    put(out, b")")?;
    put_expr(out, scope, value)?;
    put(out, b";")
}

fn put_set(
    alloc: Global,
    out: &mut Vec<u8>,
    scope: &Scope,
    margin: usize,
    field: u32,
    value: &Expr,
) -> Result<(), AllocError>
    ensures { OnOk result (out.new.items ≡ out.old.items
        ++ noted_stmt_bytes (scope_notes scope.now) (vocabulary_of scope.now) margin
        (assign 0 field (expr_tree value.now))) }
{
    let note = note_at(scope.notes, field as usize);
    put_margin(out, margin)?;
    let code_at = out.len();
    put_store(out, scope, field, value)?;
    end_line(alloc, out, margin, code_at, note)
}

fn put_set_at(
    alloc: Global,
    out: &mut Vec<u8>,
    scope: &Scope,
    margin: usize,
    field: u32,
    index: &Expr,
    value: &Expr,
) -> Result<(), AllocError>
    ensures { OnOk result (out.new.items ≡ out.old.items
        ++ noted_stmt_bytes (scope_notes scope.now) (vocabulary_of scope.now) margin
        (assign_at 0 field (expr_tree index.now) (expr_tree value.now))) }
{
    let note = note_at(scope.notes, field as usize);
    put_margin(out, margin)?;
    let code_at = out.len();
    put_item_store(out, scope, field, index, value)?;
    end_line(alloc, out, margin, code_at, note)
}

fn put_noted_call(
    alloc: Global,
    out: &mut Vec<u8>,
    scope: &Scope,
    margin: usize,
    procedure: u32,
    target: Target,
    values: &[Expr],
) -> Result<(), AllocError>
    ensures { OnOk result (out.new.items ≡ out.old.items
        ++ noted_stmt_bytes (scope_notes scope.now) (vocabulary_of scope.now) margin
        (call 0 procedure target (exprs_of_list (map expr_tree values.now)))) }
{
    let note = target_note(scope, target);
    put_margin(out, margin)?;
    let code_at = out.len();
    put_call(out, scope, procedure, target, values)?;
    end_line(alloc, out, margin, code_at, note)
}

// The note at a call: that of the field on which it is.
fn target_note<'a>(scope: &Scope<'a>, target: Target) -> &'a [u8]
    ensures { result.now ≡ target_note (scope_notes scope.now) target }
{
    match target {
        Target::Own => b"",
        Target::Child(field) => note_at(scope.notes, field as usize),
    }
}

fn put_test(out: &mut Vec<u8>, scope: &Scope, margin: usize, test: &Cond) -> Result<(), AllocError>
    ensures { OnOk result (out.new.items ≡ out.old.items
        ++ (margin_bytes margin ++ codes "if " ++ cond_bytes (vocabulary_of scope.now)
        (cond_tree test.now) ++ ended (codes " {"))) }
{
    put_margin(out, margin)?;
    put(out, b"if ")?;
    put_cond(out, scope, test)?;
    put(out, b" {\n")
}

fn put_close(out: &mut Vec<u8>, margin: usize) -> Result<(), AllocError>
    ensures { OnOk result (out.new.items ≡ out.old.items ++ (margin_bytes margin ++ ended (codes "}"))) }
{
    put_margin(out, margin)?;
    put(out, b"}\n")
}

#[cycle(statement)]
fn put_stmt(
    alloc: Global,
    out: &mut Vec<u8>,
    scope: &Scope,
    margin: usize,
    s: &Stmt,
) -> Result<(), AllocError>
    ensures { OnOk result (out.new.items ≡ out.old.items
        ++ noted_stmt_bytes (scope_notes scope.now) (vocabulary_of scope.now) margin
        (stmt_tree s.now)) }
{
    match s {
        Stmt::Set { field, value, .. } => put_set(alloc, out, scope, margin, *field, value),
        Stmt::SetAt {
            field,
            index,
            value,
            ..
        } => put_set_at(alloc, out, scope, margin, *field, index, value),
        Stmt::If { test, yes, no, .. } => {
            put_test(out, scope, margin, test)?;
            put_stmts(alloc, out, scope, deeper(margin), yes)?;
            put_else(alloc, out, scope, margin, no)?;
            put_close(out, margin)
        }
        Stmt::Call {
            procedure,
            target,
            values,
            ..
        } => put_noted_call(alloc, out, scope, margin, *procedure, *target, values),
    }
}

// The second block of a choice, where it does something.
#[cycle(statement)]
fn put_else(
    alloc: Global,
    out: &mut Vec<u8>,
    scope: &Scope,
    margin: usize,
    no: &[Stmt],
) -> Result<(), AllocError>
    ensures { OnOk result (out.new.items ≡ out.old.items
        ++ noted_else_bytes (scope_notes scope.now) (vocabulary_of scope.now) margin
        (stmts_of_list (map stmt_tree no.now))) }
{
    if no.is_empty() {
        return Ok(());
    }
    put_margin(out, margin)?;
    put(out, b"} else {\n")?;
    put_stmts(alloc, out, scope, deeper(margin), no)
}

#[cycle(statement)]
pub(super) fn put_stmts(
    alloc: Global,
    out: &mut Vec<u8>,
    scope: &Scope,
    margin: usize,
    stmts: &[Stmt],
) -> Result<(), AllocError>
    ensures { OnOk result (out.new.items ≡ out.old.items
        ++ noted_stmts_bytes (scope_notes scope.now) (vocabulary_of scope.now) margin
        (stmts_of_list (map stmt_tree stmts.now))) }
{
    for s in stmts {
        put_stmt(alloc, out, scope, margin, s)?;
    }
    Ok(())
}
