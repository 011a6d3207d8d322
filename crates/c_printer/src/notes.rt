//! Notes on a program, for whoever reads its text.
ghost use Rattle.std.specs.Prelude.{◌≡◌, map};
ghost use Rattle.c_printer.specs.Notes.{note_at, notes_on, notes_seen};

/// The notes on a struct. An empty text is none.
#[derive(Drop)]
pub struct StructNotes {
    /// What the struct is of.
    pub above: Vec<u8>,
    /// What its fields are of, by their positions. Fields past the end have no note.
    pub fields: Vec<Vec<u8>>,
}

/// The notes on a program. An empty text is none.
#[derive(Drop)]
pub struct Notes {
    /// The notes on its structs, by their positions. Structs past the end have none.
    pub structs: Vec<StructNotes>,
    /// What its procedures are for, by their positions. Procedures past the end have no note.
    pub procedures: Vec<Vec<u8>>,
}

impl Notes {
    // The note above the struct at a position.
    pub(crate) fn above_struct(&self, k: usize) -> &[u8]
        ensures { result.now ≡ (notes_on (notes_seen self.now) k).above }
    {
        match self.structs.get(k) {
            Some(notes) => notes.above.as_slice(),
            None => b"",
        }
    }

    // The notes on the fields of the struct at a position.
    pub(crate) fn on_fields(&self, k: usize) -> &[Vec<u8>]
        ensures { map (λ note. note.items) result.now ≡ (notes_on (notes_seen self.now) k).fields }
    {
        match self.structs.get(k) {
            Some(notes) => notes.fields.as_slice(),
            None => &[],
        }
    }

    // The note above the procedure at a position.
    pub(crate) fn above_procedure(&self, k: usize) -> &[u8]
        ensures { result.now ≡ note_at (notes_seen self.now).procedures k }
    {
        note_at(self.procedures.as_slice(), k)
    }
}

// The note at a position.
pub(crate) fn note_at(notes: &[Vec<u8>], k: usize) -> &[u8]
    ensures { result.now ≡ note_at (map (λ note. note.items) notes.now) k }
{
    match notes.get(k) {
        Some(note) => note.as_slice(),
        None => b"",
    }
}
