//! The equations of one row in the node of its system.
#![tactic(auto)]

mod building;
mod leaves;
mod memories;
mod reading;
mod rows;
mod scopes;
mod starts;
mod tests_of_rows;
mod values;

pub use building::{also, arrow, choice, set, signed_number, two};
pub use leaves::control_leaves;
pub use rows::own_equations;
pub use scopes::SystemScope;
pub use tests_of_rows::test_value;
pub use values::row_code;
