ghost use Rattle.c_semantics.specs.CallLaws.{ArgumentsArePassed, ChildCallsStayInside, OwnCallsRunBodies};
ghost use Rattle.c_semantics.specs.CellLaws.{FieldsAreSet, ItemsAreSet};
ghost use Rattle.c_semantics.specs.EvaluationLaws.{ConditionsAreEvaluated, ExpressionsAreEvaluated, PureFunctionsTakeAStep};
ghost use Rattle.c_semantics.specs.FieldNumbers.{FieldNumbersAreFree};
ghost use Rattle.c_semantics.specs.LinesAside.{LinesMeanNothing};
ghost use Rattle.c_semantics.specs.NumberingLaws.{CodeSeesWhatItCalls, ProcedureNumbersAreFree, ProceduresStandInOrder};
ghost use Rattle.c_semantics.specs.RunLaws.{ItemsAreStored, NumbersAreStored, SequencesRunInOrder, TestsChooseBranches};

/// Programs that differ in the lines of their statements alone do the same at each call, except for the line at which they
/// are stuck.
pub fn lines_mean_nothing()
    ensures { LinesMeanNothing }
{}

/// Of two lists of statements, one after the other, the second goes on from where the first ends, and their calls and stores
/// come one after the other; where the first is stuck, nothing of the second is done.
pub fn sequences_run_in_order()
    ensures { SequencesRunInOrder }
{}

/// A store takes a step, evaluates its value and writes it to the field, and changes nothing else. It is stuck where the value
/// is, and at a number that isn't of the field's type.
pub fn numbers_are_stored()
    ensures { NumbersAreStored }
{}

/// A store in an item of an array does the same to that item, and is stuck as well where the index is no item's place.
pub fn items_are_stored()
    ensures { ItemsAreStored }
{}

/// A test takes a step and evaluates its condition, and then does what the chosen branch does.
pub fn tests_choose_branches()
    ensures { TestsChooseBranches }
{}

/// Arguments are passed one by one, each a number of its parameter's type.
pub fn arguments_are_passed()
    ensures { ArgumentsArePassed }
{}

/// A call on the same instance takes a step, evaluates the arguments and does what the procedure's body does, with its own entry
/// before the log.
pub fn own_calls_run_bodies()
    ensures { OwnCallsRunBodies }
{}

/// A call on the instance in a field does to that instance what the routine does with its fields, logs and stores under that
/// field, and changes no other field.
pub fn child_calls_stay_inside()
    ensures { ChildCallsStayInside }
{}

/// Code does the same among other procedures, if those that it calls are the same there.
pub fn code_sees_what_it_calls()
    ensures { CodeSeesWhatItCalls }
{}

/// Code that calls procedures by other numbers does the same among procedures that are under those numbers.
pub fn procedure_numbers_are_free()
    ensures { ProcedureNumbersAreFree }
{}

/// Code that names its own fields by other numbers does the same to fields that are at those.
pub fn field_numbers_are_free()
    ensures { FieldNumbersAreFree }
{}

/// Each procedure of a program is numbered by its place, and sees those before it alone.
pub fn procedures_stand_in_order()
    ensures { ProceduresStandInOrder }
{}

/// A field that is set holds what was written there, and no other changes.
pub fn fields_are_set()
    ensures { FieldsAreSet }
{}

/// An item of an array that is set is what was written there, and no other changes.
pub fn items_are_set()
    ensures { ItemsAreSet }
{}

/// An expression comes to what its operator makes of what its parts come to, from the left, and is stuck where a part is, where
/// an int64_t doesn't hold the result, at a divisor of 0, and at an index that is no item's place.
pub fn expressions_are_evaluated()
    ensures { ExpressionsAreEvaluated }
{}

/// A condition comes to what its parts come to, compared or joined, and looks at no more of them than C does.
pub fn conditions_are_evaluated()
    ensures { ConditionsAreEvaluated }
{}

/// A pure function takes a step and evaluates its body on its arguments alone.
pub fn pure_functions_take_a_step()
    ensures { PureFunctionsTakeAStep }
{}
