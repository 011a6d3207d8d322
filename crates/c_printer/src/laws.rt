ghost use Rattle.c_printer.specs.Laws.{CommentsAreHarmless, CommentsAreUtf8, NotesAreOptional, NotesChangeNoReading};

/// With notes that say nothing a program is printed as without notes.
pub fn notes_are_optional()
    ensures { NotesAreOptional }
{}

/// Whatever the notes say, a text has one reading: the program.
pub fn notes_change_no_reading()
    ensures { NotesChangeNoReading }
{}

/// A comment is short, and holds nothing that ends it or joins lines, whatever its text.
pub fn comments_are_harmless()
    ensures { CommentsAreHarmless }
{}

/// A comment is UTF-8, whatever its text.
pub fn comments_are_utf8()
    ensures { CommentsAreUtf8 }
{}
