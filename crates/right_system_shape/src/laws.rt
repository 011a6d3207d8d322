ghost use Rattle.right_system_shape.specs.Formed.{CodeIsUsed, CodeKeepsRules, CodeStatesOnce, EmittedCodeHasShape, FunctionsGiveTheirOutputs, HeadsArePublic, OutputsHavePlaces, SlotsAreRight, StructHasItsSlots};

use emit_row_code::rows_read_their_leaves;
use modules_profile::{locals_are_lawful, nodes_reach_as_rows};

/// The slots of a system's code are its own, and counters, or the filler.
pub fn slots_are_right()
    ensures { SlotsAreRight }
{}

/// The struct of a system's code has the slots as its fields.
pub fn struct_has_its_slots()
    ensures { StructHasItsSlots }
{}

/// The value of each output of a system is in the field that its code names.
pub fn outputs_have_places()
    ensures { OutputsHavePlaces }
{
    locals_are_lawful();
}

/// The public procedures of a system's code are those of its header, with its parameters.
pub fn heads_are_public()
    ensures { HeadsArePublic }
{}

/// Each procedure of a system's code reads, stores, tests and calls only what the rules allow.
pub fn code_keeps_rules()
    ensures { CodeKeepsRules }
{
    locals_are_lawful();
    nodes_reach_as_rows();
    rows_read_their_leaves();
}

/// In the ticks of a system each value is stored, and each function and update of a child called, by one statement.
pub fn code_states_once()
    ensures { CodeStatesOnce }
{
    locals_are_lawful();
    nodes_reach_as_rows();
}

/// Each function of a system's code stores just the outputs that it gives, itself or through groups.
pub fn functions_give_their_outputs()
    ensures { FunctionsGiveTheirOutputs }
{
    locals_are_lawful();
    nodes_reach_as_rows();
}

/// Nothing in the code of a system is idle: each private procedure is called, and each counter read by a test.
pub fn code_is_used()
    ensures { CodeIsUsed }
{
    locals_are_lawful();
    nodes_reach_as_rows();
}

/// The code of a system has the shape of a system's code.
pub fn emitted_code_has_shape()
    ensures { EmittedCodeHasShape }
{
    locals_are_lawful();
    nodes_reach_as_rows();
    rows_read_their_leaves();
}
