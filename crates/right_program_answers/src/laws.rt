ghost use Rattle.right_linking.specs.Whole.{AnswersFollow};

use modules_profile::{header_is_of_own_rows, profiles_are_one};
use right_relation::budgets_sum_to_bound;

/// An instance of a system, at any path below any fields, that is as its start left it answers its calls in any lawful
/// order, where each instance lives through runs.
pub fn answers_follow()
    ensures { AnswersFollow }
{
    profiles_are_one();
    header_is_of_own_rows();
    budgets_sum_to_bound();
}
