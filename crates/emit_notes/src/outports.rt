ghost use Rattle.std.specs.Prelude.{◌≡◌, ◌++◌, List, OnOk, map};
ghost use Rattle.c_syntax.specs.Plain.{stmt_tree};
ghost use Rattle.c_syntax.specs.PlainField.{field_trees};
ghost use Rattle.c_syntax.specs.Tree.{stmts_of_list};
ghost use Rattle.emit_notes.specs.Outports as stored;

use crate::bytes::push_if_there;
use crate::labels::Label;
use crate::lookups::{field_at, outport_at, stored_by};
use crate::name_uses::{NameUse, use_of};
use base_core::Memory;
use c_syntax::{Field, Stmt, Target};

/// The row whose value a name stands for.
pub(crate) fn value_row(name: &[u8]) -> Option<usize>
    ensures { result ≡ stored.value_row name.now }
{
    match use_of(name) {
        NameUse::Value(row) => Some(row),
        _ => None,
    }
}

/// The row itself, if it is an Outport.
fn if_outport(labels: &[Label], row: usize) -> Option<usize>
    ensures { result ≡ stored.if_outport labels.now row }
{
    match outport_at(labels, row) {
        Some(_) => Some(row),
        None => None,
    }
}

/// The Outport whose value a field of this name holds.
fn named_outport(labels: &[Label], name: &[u8]) -> Option<usize>
    ensures { result ≡ stored.named_outport labels.now name.now }
{
    match value_row(name) {
        Some(row) => if_outport(labels, row),
        None => None,
    }
}

/// The Outport whose value the field at a position holds.
fn field_outport(labels: &[Label], fields: &[Field], field: u32) -> Option<usize>
    ensures { result ≡ stored.field_outport labels.now (field_trees fields.now) field }
{
    match field_at(fields, field) {
        Some(field) => named_outport(labels, field.name.bytes()),
        None => None,
    }
}

/// Adds the Outports that a call stores in the own fields.
fn push_called(
    earlier: &[Vec<usize>],
    rows: &mut Vec<usize>,
    procedure: u32,
    target: Target,
) -> Result<(), Memory>
    ensures { OnOk result (rows.new.items ≡ rows.old.items
        ++ stored.called_outports (map (λ x. x.items) earlier.now) procedure target) }
{
    match target {
        Target::Own => Ok(rows.extend_from_slice(stored_by(earlier, procedure))?),
        Target::Child(_) => Ok(()),
    }
}

/// Adds the Outports that a statement stores.
#[cycle(statement)]
fn push_stmt(
    labels: &[Label],
    fields: &[Field],
    earlier: &[Vec<usize>],
    rows: &mut Vec<usize>,
    s: &Stmt,
) -> Result<(), Memory>
    ensures { OnOk result (rows.new.items ≡ rows.old.items ++ stored.stmt_outports labels.now
        (field_trees fields.now) (map (λ x. x.items) earlier.now) (stmt_tree s.now)) }
{
    match s {
        Stmt::Set { field, .. } => push_if_there(rows, field_outport(labels, fields, *field)),
        Stmt::SetAt { .. } => Ok(()),
        Stmt::If { yes, no, .. } => {
            push_stmts(labels, fields, earlier, rows, yes)?;
            push_stmts(labels, fields, earlier, rows, no)
        }
        Stmt::Call {
            procedure,
            target,
            ..
        } => push_called(earlier, rows, *procedure, *target),
    }
}

/// Adds the Outports that statements store.
#[cycle(statement)]
pub(crate) fn push_stmts(
    labels: &[Label],
    fields: &[Field],
    earlier: &[Vec<usize>],
    rows: &mut Vec<usize>,
    ss: &[Stmt],
) -> Result<(), Memory>
    ensures { OnOk result (rows.new.items ≡ rows.old.items ++ stored.stmts_outports labels.now
        (field_trees fields.now) (map (λ x. x.items) earlier.now)
        (stmts_of_list (map stmt_tree ss.now))) }
{
    for s in ss {
        push_stmt(labels, fields, earlier, rows, s)?;
    }
    Ok(())
}
