// Which own fields a test reads.
ghost use Rattle.std.specs.Prelude.{◌≡◌, ◌∷◌, [], ◌++◌, IfOk, OnOk, map};
ghost use Rattle.c_syntax.specs.Tree.{exprs_of_list};
ghost use Rattle.c_syntax.specs.Plain.{cond_tree, expr_tree};
ghost use Rattle.emit_fused.specs.Kept.{cond_fields, expr_fields, exprs_fields, leaf_fields};

use base_core::Memory;
use c_syntax::{Cond, Expr, Leaf};
use std::alloc::Global;

/// Adds the field that a leaf reads, or reads in.
fn push_leaf_field(fields: &mut Vec<u32>, leaf: Leaf) -> Result<(), Memory>
    ensures { OnOk result (fields.new.items ≡ fields.old.items ++ leaf_fields leaf) }
{
    match leaf {
        Leaf::Param(_) => {}
        Leaf::Own(field) => fields.push(field)?,
        Leaf::Child(field, _) => fields.push(field)?,
    }
    Ok(())
}

/// Adds the fields that an expression reads.
#[tactic(auto, using(std::proofs::lemmas::List::append_assoc))]
#[cycle(expression)]
fn push_expr_fields(fields: &mut Vec<u32>, e: &Expr) -> Result<(), Memory>
    ensures { OnOk result (fields.new.items ≡ fields.old.items ++ expr_fields (expr_tree e.now)) }
{
    match e {
        Expr::Literal(_) => Ok(()),
        Expr::Neg(operand) => push_expr_fields(fields, operand),
        Expr::Read(leaf) => push_leaf_field(fields, *leaf),
        Expr::Binary(_, left, right) => {
            push_expr_fields(fields, left)?;
            push_expr_fields(fields, right)
        }
        Expr::Pick(test, on_true, on_false) => {
            push_cond_fields(fields, test)?;
            push_expr_fields(fields, on_true)?;
            push_expr_fields(fields, on_false)
        }
        Expr::Pure(_, values) => push_exprs_fields(fields, values.as_slice()),
        Expr::At(field, index) => {
            fields.push(*field)?;
            push_expr_fields(fields, index)
        }
    }
}

/// Adds the fields that expressions read.
#[cycle(expression)]
fn push_exprs_fields(fields: &mut Vec<u32>, es: &[Expr]) -> Result<(), Memory>
    ensures { OnOk result (fields.new.items
        ≡ fields.old.items ++ exprs_fields (exprs_of_list (map expr_tree es.now))) }
{
    for e in es {
        push_expr_fields(fields, e)?;
    }
    Ok(())
}

/// Adds the fields that a condition reads.
#[tactic(auto, using(std::proofs::lemmas::List::append_assoc))]
#[cycle(expression)]
fn push_cond_fields(fields: &mut Vec<u32>, test: &Cond) -> Result<(), Memory>
    ensures { OnOk result
        (fields.new.items ≡ fields.old.items ++ cond_fields (cond_tree test.now)) }
{
    match test {
        Cond::Compare(_, left, right) => {
            push_expr_fields(fields, left)?;
            push_expr_fields(fields, right)
        }
        Cond::Both(left, right) => {
            push_cond_fields(fields, left)?;
            push_cond_fields(fields, right)
        }
        Cond::Either(left, right) => {
            push_cond_fields(fields, left)?;
            push_cond_fields(fields, right)
        }
        Cond::Not(operand) => push_cond_fields(fields, operand),
    }
}

/// The own fields that a condition reads.
pub(crate) fn fields_of(alloc: Global, test: &Cond) -> Result<Vec<u32>, Memory>
    ensures { IfOk result (λ v. v.items ≡ cond_fields (cond_tree test.now)) }
{
    let mut fields = Vec::new(alloc);
    push_cond_fields(&mut fields, test)?;
    Ok(fields)
}
