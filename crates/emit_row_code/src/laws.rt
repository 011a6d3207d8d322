ghost use Rattle.emit_row_code.specs.Laws.{NumbersAreWritten, ReturnsAreFew, RowsAreComputed, RowsAreShallow, RowsReadTheirLeaves};
ghost use Rattle.emit_row_code.specs.TestLaws.{ActivityIsTested, AllTestsArePlain, BothAreTested, HitsAreTested};
ghost use Rattle.emit_row_code.specs.LawfulLaws.{RowsAreLawful, TestsAreLawful};
ghost use Rattle.emit_row_code.specs.Resolved.{RowOpsAreWritable};

use base_fixed_point::rounding_is_one;
use diagram_blocks::{narrow_rows_fit, values_stay_in_type};
use emit_prelude::whole_numbers_stay;

/// The constants and the shifts of a row's operation fit 64 bits.
pub fn row_ops_are_writable()
    ensures { RowOpsAreWritable }
{
    values_stay_in_type();
    narrow_rows_fit();
}

/// The expression of a row gives what the row computes, whatever its leaves read and the expression for
/// its memory gives, and is never stuck.
pub fn rows_are_computed()
    ensures { RowsAreComputed }
{
    values_stay_in_type();
    narrow_rows_fit();
    whole_numbers_stay();
    rounding_is_one();
}

/// It takes two `return`s of pure functions at most.
pub fn returns_are_few()
    ensures { ReturnsAreFew }
{}

/// It reads the leaves of its inputs and those that the expression for its memory reads, and no others.
pub fn rows_read_their_leaves()
    ensures { RowsReadTheirLeaves }
{}

/// It is 40 deep at most, or as deep as the expression for its memory.
pub fn rows_are_shallow()
    ensures { RowsAreShallow }
{}

/// The tests of a system inside an active one are its activity, and its trigger remembers its level.
pub fn activity_is_tested()
    ensures { ActivityIsTested }
{}

/// The test of a sample time is whether it hits the tick.
pub fn hits_are_tested()
    ensures { HitsAreTested }
{}

/// Two tests in one hold where both do.
pub fn both_are_tested()
    ensures { BothAreTested }
{}

/// Tests read the leaves of controls and of the tick alone, and are 10 deep at most.
pub fn all_tests_are_plain()
    ensures { AllTestsArePlain }
{}

/// A written number is that number.
pub fn numbers_are_written()
    ensures { NumbersAreWritten }
{}

/// The expression of a row keeps the static rules of C.
pub fn rows_are_lawful()
    ensures { RowsAreLawful }
{
    row_ops_are_writable();
}

/// The tests of a system keep the static rules of C.
pub fn tests_are_lawful()
    ensures { TestsAreLawful }
{}
