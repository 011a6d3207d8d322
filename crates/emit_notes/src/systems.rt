ghost use Rattle.std.specs.Prelude.{◌≡◌, ◌++◌, IfOk, OnOk};
ghost use Rattle.emit_notes.specs.BlockNotes as noted;

use crate::bytes::push_bytes;
use crate::labels::Label;
use crate::lookups::label_at;
use crate::name_uses::NameUse;
use base_core::Memory;
use std::alloc::Global;

/// Subsystems are at most so deep.
const MOST_DEEP: usize = 32;

/// Adds the names of the subsystems around a row, at most so many with its own, the outermost first, with `/` between
/// each two.
fn push_path(out: &mut Vec<u8>, labels: &[Label], most: usize, row: usize) -> Result<(), Memory>
    ensures { OnOk result (out.new.items ≡ out.old.items ++ noted.path_of labels.now most row) }
{
    if most == 0 {
        return Ok(());
    }
    let Some(label) = label_at(labels, row) else {
        return Ok(());
    };
    match label.owner {
        Some(owner) => {
            push_path(out, labels, most - 1, owner)?;
            push_bytes(out, b"/")?;
            push_bytes(out, label.name.bytes())
        }
        None => push_bytes(out, label.name.bytes()),
    }
}

/// The note on the struct of a subsystem: its path, and the line of its Block.
fn subsystem_note(alloc: Global, labels: &[Label], row: usize) -> Result<Vec<u8>, Memory>
    ensures { IfOk result (λ v. v.items ≡ noted.subsystem_note labels.now row) }
{
    let mut note = Vec::new(alloc);
    let Some(label) = label_at(labels, row) else {
        return Ok(note);
    };
    push_path(&mut note, labels, MOST_DEEP, row)?;
    let line = label.line;
    let place = format!(in alloc; ", line {line}")?;
    push_bytes(&mut note, place.as_bytes())?;
    Ok(note)
}

/// The note on a struct by what its name stands for.
pub(crate) fn system_note(alloc: Global, labels: &[Label], what: NameUse) -> Result<Vec<u8>, Memory>
    ensures { IfOk result (λ v. v.items ≡ noted.system_note labels.now what) }
{
    match what {
        NameUse::System(row) => subsystem_note(alloc, labels, row),
        NameUse::Top => Ok(Vec::from_slice(alloc, b"the model")?),
        _ => Ok(Vec::new(alloc)),
    }
}
