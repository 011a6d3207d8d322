ghost use Rattle.std.specs.Prelude.{◌≡◌, ◌++◌, IfOk, OnOk};
ghost use Rattle.emit_notes.specs.BlockNotes as noted;

use crate::bytes::{numbered, push_bytes};
use crate::labels::Label;
use crate::lookups::label_at;
use crate::name_uses::NameUse;
use base_core::Memory;
use std::alloc::Global;

/// Adds the note of a block: its type, and its name in quotes.
fn push_block(out: &mut Vec<u8>, label: &Label) -> Result<(), Memory>
    ensures { OnOk result (out.new.items ≡ out.old.items ++ noted.block_note label.now) }
{
    push_bytes(out, label.block_type.name().as_bytes())?;
    push_bytes(out, b" \"")?;
    push_bytes(out, label.name.bytes())?;
    push_bytes(out, b"\"")
}

/// Room for the note of a block with a short name.
const NOTE_ROOM: usize = 48;

/// The note of a row after some words; of a row that isn't there none.
fn row_note(alloc: Global, labels: &[Label], words: &[u8], row: usize) -> Result<Vec<u8>, Memory>
    ensures { IfOk result (λ v. v.items ≡ noted.row_note labels.now words.now row) }
{
    let Some(label) = label_at(labels, row) else {
        return Ok(Vec::new(alloc));
    };
    let mut note = Vec::with_capacity(alloc, NOTE_ROOM)?;
    push_bytes(&mut note, words)?;
    push_block(&mut note, label)?;
    Ok(note)
}

/// The note on a field by what its name stands for.
pub(crate) fn use_note(alloc: Global, labels: &[Label], what: NameUse) -> Result<Vec<u8>, Memory>
    ensures { IfOk result (λ v. v.items ≡ noted.use_note labels.now what) }
{
    match what {
        NameUse::Value(row) => row_note(alloc, labels, b"", row),
        NameUse::Memory(row) => row_note(alloc, labels, b"memory of ", row),
        NameUse::OldestPlace(row) => row_note(alloc, labels, b"oldest sample of ", row),
        NameUse::SampleCount(row) => row_note(alloc, labels, b"samples taken by ", row),
        NameUse::System(row) => row_note(alloc, labels, b"", row),
        NameUse::Group(group) => numbered(alloc, "group ", group, " has run"),
        NameUse::Output(port) => numbered(alloc, "output ", port, ""),
        NameUse::Trigger => Ok(Vec::from_slice(alloc, b"what the trigger remembers")?),
        NameUse::Top => Ok(Vec::from_slice(alloc, b"the model")?),
        NameUse::Tick => Ok(Vec::from_slice(alloc, b"tick of the cycle")?),
        NameUse::Input(_) | NameUse::Other => Ok(Vec::new(alloc)),
    }
}
