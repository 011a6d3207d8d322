//! Fixed-point types, and conversion between them.
#![tactic(auto)]

mod cases;
mod constants;
mod conversion;
mod laws;
mod range;
mod rounding;
mod types;

pub use cases::all_cases;
pub use constants::{gain_constant, quantize};
pub use conversion::convert;
pub use laws::{conversion_is_one, rounding_is_one};
pub use range::{greatest, least};
pub use types::{Case, CaseTable, FixType, Over, Round, TypeFault, TypeText};
