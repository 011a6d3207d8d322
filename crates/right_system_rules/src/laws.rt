ghost use Rattle.right_system_rules.specs.Laws.{CallsStayWithin, EmittedHasShortChains, EmittedIsLawful, ProceduresAreLawful, ProceduresDiffer, ProceduresFit, StructsAreLawful};

use diagram_meaning::resolved_rows_are_narrow;
use emit_row_code::{
    all_statements_are_shallow, all_tests_are_plain, row_ops_are_writable, rows_are_lawful,
    rows_are_shallow, statements_are_lawful, tests_are_lawful,
};
use modules_profile::locals_are_lawful;
use right_relation::cycle_is_of_locals;

/// The struct of a system from which code is made and those of its children are lawful.
pub fn structs_are_lawful()
    ensures { StructsAreLawful }
{
    locals_are_lawful();
    resolved_rows_are_narrow();
    row_ops_are_writable();
    cycle_is_of_locals();
}

/// The names of its procedures and of its children's differ, also from those of the prelude.
pub fn procedures_differ()
    ensures { ProceduresDiffer }
{
    locals_are_lawful();
    resolved_rows_are_narrow();
    row_ops_are_writable();
    cycle_is_of_locals();
}

/// Each of its procedures has parameters of different names, and what it reads, stores and calls is there.
pub fn procedures_are_lawful()
    ensures { ProceduresAreLawful }
{
    locals_are_lawful();
    resolved_rows_are_narrow();
    row_ops_are_writable();
    cycle_is_of_locals();
    statements_are_lawful();
    all_statements_are_shallow();
    rows_are_lawful();
    rows_are_shallow();
    tests_are_lawful();
    all_tests_are_plain();
}

/// Each of its procedures has few parameters and is shallow.
pub fn procedures_fit()
    ensures { ProceduresFit }
{
    locals_are_lawful();
    resolved_rows_are_narrow();
    row_ops_are_writable();
    cycle_is_of_locals();
    statements_are_lawful();
    all_statements_are_shallow();
    rows_are_lawful();
    rows_are_shallow();
    tests_are_lawful();
    all_tests_are_plain();
}

/// Each of its procedures calls those of the system and of its children alone.
pub fn calls_stay_within()
    ensures { CallsStayWithin }
{
    locals_are_lawful();
    resolved_rows_are_narrow();
    row_ops_are_writable();
    cycle_is_of_locals();
    statements_are_lawful();
    all_statements_are_shallow();
    rows_are_lawful();
    rows_are_shallow();
    tests_are_lawful();
    all_tests_are_plain();
}

/// Its code keeps the rules and limits of C by itself.
pub fn emitted_is_lawful()
    ensures { EmittedIsLawful }
{
    structs_are_lawful();
    procedures_differ();
    procedures_are_lawful();
    procedures_fit();
    calls_stay_within();
}

/// Calls on `s` go through at most three of its procedures.
pub fn emitted_has_short_chains()
    ensures { EmittedHasShortChains }
{
    locals_are_lawful();
    resolved_rows_are_narrow();
    row_ops_are_writable();
    cycle_is_of_locals();
    statements_are_lawful();
    all_statements_are_shallow();
    rows_are_lawful();
    rows_are_shallow();
    tests_are_lawful();
    all_tests_are_plain();
}
