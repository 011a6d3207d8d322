//! Texts of numbers, and their exact values.
#![tactic(auto)]

mod digits;
mod fractions;
mod literal;

pub use digits::{capped_number, is_numeral};
pub use fractions::frac_of;
pub use literal::{read_decimal, read_plain};
