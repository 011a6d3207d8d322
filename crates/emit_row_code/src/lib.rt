//! What a row computes and when a system is active, as expressions and conditions of C over leaves that are given.
#![tactic(auto)]

mod activity;
mod balanced;
mod conversion;
mod exact;
mod expression;
mod laws;
mod leaves;
mod ranges;
mod rings;
mod rows;
mod statement_laws;
mod statements;
mod truth;

pub use activity::{active_by, both_tests, disabled_by, hit_test, level_code, off_by};
pub use expression::written;
pub use laws::{
    activity_is_tested, all_tests_are_plain, both_are_tested, hits_are_tested, numbers_are_written,
    returns_are_few, row_ops_are_writable, rows_are_computed, rows_are_lawful, rows_are_shallow,
    rows_read_their_leaves, tests_are_lawful,
};
pub use leaves::{ControlLeaves, RingFields};
pub use rings::oldest_code;
pub use rows::value_code;
pub use statement_laws::{
    all_statements_are_shallow, calls_are_made, memories_are_stored, oldest_is_read,
    resets_are_called, rings_are_stored, rows_are_stored, statements_are_lawful,
    triggers_are_stored, values_are_reset, values_are_stored,
};
pub use statements::{
    DelayStep, call_statements, reset_call_statements, trigger_statements, value_reset_statements,
    value_statements,
};
