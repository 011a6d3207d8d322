ghost use Rattle.emit_row_code.specs.LawfulStatements.{AllStatementsAreShallow, StatementsAreLawful};
ghost use Rattle.emit_row_code.specs.StatementLaws.{CallsAreMade, MemoriesAreStored, OldestIsRead, ResetsAreCalled, RingsAreStored, RowsAreStored, TriggersAreStored, ValuesAreReset, ValuesAreStored};

use crate::laws::rows_are_computed;

/// The oldest sample of a ring is its start until so many were taken as it has, and then its oldest item.
pub fn oldest_is_read()
    ensures { OldestIsRead }
{}

/// Where a row runs its value is stored, and nothing else is.
pub fn values_are_stored()
    ensures { ValuesAreStored }
{}

/// Where a row runs, what it computes of its inputs and its memory is stored.
pub fn rows_are_stored()
    ensures { RowsAreStored }
{
    rows_are_computed();
}

/// Where a system is disabled an output that is reset gets its start.
pub fn values_are_reset()
    ensures { ValuesAreReset }
{}

/// Where a delay of one sample runs, its memory takes the input; else it is the start where the system is off.
pub fn memories_are_stored()
    ensures { MemoriesAreStored }
{}

/// Where a delay of several samples runs, its ring takes the input; else it is emptied where the system is off.
pub fn rings_are_stored()
    ensures { RingsAreStored }
{}

/// A trigger remembers its level.
pub fn triggers_are_stored()
    ensures { TriggersAreStored }
{}

/// Where a system is active its child does what the called procedure does.
pub fn calls_are_made()
    ensures { CallsAreMade }
{}

/// Where a system is off its child does what its reset does.
pub fn resets_are_called()
    ensures { ResetsAreCalled }
{}

/// The statements for one row, one trigger or one child keep the static rules of C.
pub fn statements_are_lawful()
    ensures { StatementsAreLawful }
{}

/// They are three deep at most, and their expressions no deeper than 3 or what they are made from.
pub fn all_statements_are_shallow()
    ensures { AllStatementsAreShallow }
{}
