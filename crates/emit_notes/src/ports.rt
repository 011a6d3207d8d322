ghost use Rattle.std.specs.Prelude.{◌≡◌, IfOk};
ghost use Rattle.c_syntax.specs.Plain.{param_trees};
ghost use Rattle.c_syntax.specs.PlainField.{field_tree, field_trees};
ghost use Rattle.emit_notes.specs.FunctionNotes as function;

use crate::bytes::push_if_there;
use crate::labels::Label;
use crate::lookups::{inport_at, outport_at};
use crate::name_uses::{NameUse, use_of};
use crate::outports::value_row;
use base_core::{Memory, Text};
use c_syntax::{CType, Field};
use std::alloc::Global;

/// A system has so many Outports at most.
const MOST_PORTS: usize = 32;

/// Whether there is a port, and it is this one.
fn is_port(port: usize, found: Option<u32>) -> bool
    ensures { result ≡ function.is_port port found }
{
    match found {
        Some(found) => found as usize == port,
        None => false,
    }
}

/// The first of these rows that is the Outport with a port.
fn outport_with(labels: &[Label], rows: &[usize], port: usize) -> Option<usize>
    ensures { result ≡ function.outport_with labels.now rows.now port }
{
    rows.iter()
        .copied()
        .find(|row| is_port(port, outport_at(labels, *row)))
}

/// The Outports among these rows, in order of port, each once.
pub(crate) fn by_port(alloc: Global, labels: &[Label], rows: &[usize]) -> Result<Vec<usize>, Memory>
    ensures { IfOk result (λ v. v.items ≡ function.by_port labels.now rows.now) }
{
    let mut ordered = Vec::new(alloc);
    for port in 1..MOST_PORTS + 1 {
        push_if_there(&mut ordered, outport_with(labels, rows, port))?;
    }
    Ok(ordered)
}

/// The row itself, if it is the Inport with a port.
fn if_inport(labels: &[Label], port: usize, row: usize) -> Option<usize>
    ensures { result ≡ function.if_inport labels.now port row }
{
    if is_port(port, inport_at(labels, row)) {
        Some(row)
    } else {
        None
    }
}

/// The Inport with a port whose value a field holds.
fn held_inport(labels: &[Label], port: usize, field: &Field) -> Option<usize>
    ensures { result ≡ function.held_inport labels.now port (field_tree field.now) }
{
    match value_row(field.name.bytes()) {
        Some(row) => if_inport(labels, port, row),
        None => None,
    }
}

/// The Inport with a port whose value one of the fields holds.
fn inport_with(labels: &[Label], port: usize, fields: &[Field]) -> Option<usize>
    ensures { result ≡ function.inport_with labels.now port (field_trees fields.now) }
{
    for field in fields {
        if let Some(row) = held_inport(labels, port, field) {
            return Some(row);
        }
    }
    None
}

/// The Inport whose value is passed by a parameter of this name, in the system with these fields.
fn taken_inport(labels: &[Label], fields: &[Field], name: &[u8]) -> Option<usize>
    ensures { result ≡ function.taken_inport labels.now (field_trees fields.now) name.now }
{
    match use_of(name) {
        NameUse::Input(port) => inport_with(labels, port, fields),
        _ => None,
    }
}

/// The Inports whose values are passed by parameters.
pub(crate) fn taken_inports(
    alloc: Global,
    labels: &[Label],
    fields: &[Field],
    params: &[(Text, CType)],
) -> Result<Vec<usize>, Memory>
    ensures { IfOk result (λ v. v.items
        ≡ function.taken_inports labels.now (field_trees fields.now) (param_trees params.now)) }
{
    let mut rows = Vec::new(alloc);
    for (name, _) in params {
        push_if_there(&mut rows, taken_inport(labels, fields, name.bytes()))?;
    }
    Ok(rows)
}
