//! What a program of C means: what a call does to the fields of a struct, the rows that it gives over a trace, and laws
//! of both.
#![tactic(auto)]

mod laws;

pub use laws::{
    arguments_are_passed, child_calls_stay_inside, code_sees_what_it_calls,
    conditions_are_evaluated, expressions_are_evaluated, field_numbers_are_free, fields_are_set,
    items_are_set, items_are_stored, lines_mean_nothing, numbers_are_stored, own_calls_run_bodies,
    procedure_numbers_are_free, procedures_stand_in_order, pure_functions_take_a_step,
    sequences_run_in_order, tests_choose_branches,
};
