ghost use Rattle.emit_notes.specs.ModelNotes.{NotesAreOfBlocks, RowsHaveBlocks};

use diagram_verdict::accepted_tables_are_well_formed;

/// The note on a field that a row has is that of the row's block.
pub fn notes_are_of_blocks()
    ensures { NotesAreOfBlocks }
{}

/// Each row of an accepted text has its block, with the row's number and line.
pub fn rows_have_blocks()
    ensures { RowsHaveBlocks }
{
    accepted_tables_are_well_formed();
}
