ghost use Rattle.right_system_nodes.specs.PieceLaws.{CallsAreActs, MemoriesAreGiven, ResetsAreActs, RingsAreGiven, TriggersAreRemembered, UpdatesAreActs, ValuesAreGiven};
ghost use Rattle.right_system_nodes.specs.Pieces.{EmittedPiecesAreRight};

use emit_row_code::{
    activity_is_tested, both_are_tested, calls_are_made, hits_are_tested, memories_are_stored,
    oldest_is_read, resets_are_called, returns_are_few, rings_are_stored, rows_are_computed,
    triggers_are_stored, values_are_reset, values_are_stored,
};
use right_relation::locals_are_sound;

/// The code of a row with a value makes it that of the tick.
pub fn values_are_given()
    ensures { ValuesAreGiven }
{
    locals_are_sound();
    rows_are_computed();
    returns_are_few();
    activity_is_tested();
    hits_are_tested();
    both_are_tested();
    oldest_is_read();
    values_are_stored();
    values_are_reset();
}

/// The code of a delay of one sample makes its memory that of the next tick.
pub fn memories_are_given()
    ensures { MemoriesAreGiven }
{
    locals_are_sound();
    activity_is_tested();
    hits_are_tested();
    both_are_tested();
    memories_are_stored();
}

/// The code of a delay of several samples makes its ring that of the next tick.
pub fn rings_are_given()
    ensures { RingsAreGiven }
{
    locals_are_sound();
    activity_is_tested();
    hits_are_tested();
    both_are_tested();
    rings_are_stored();
}

/// The code of a trigger makes what it remembers that of the next tick.
pub fn triggers_are_remembered()
    ensures { TriggersAreRemembered }
{
    locals_are_sound();
    triggers_are_stored();
}

/// The code of a call is the act of a child's function, where the system is active.
pub fn calls_are_acts()
    ensures { CallsAreActs }
{
    locals_are_sound();
    activity_is_tested();
    calls_are_made();
}

/// The code of an update is that act of a child, where the system is active.
pub fn updates_are_acts()
    ensures { UpdatesAreActs }
{
    locals_are_sound();
    activity_is_tested();
    calls_are_made();
}

/// The code of a reset is that act of a child, where the system is off.
pub fn resets_are_acts()
    ensures { ResetsAreActs }
{
    locals_are_sound();
    activity_is_tested();
    resets_are_called();
}

/// Each piece of a system's code is right in the procedure in which it is.
pub fn pieces_are_right()
    ensures { EmittedPiecesAreRight }
{
    locals_are_sound();
    values_are_given();
    memories_are_given();
    rings_are_given();
    triggers_are_remembered();
    calls_are_acts();
    updates_are_acts();
    resets_are_acts();
}
