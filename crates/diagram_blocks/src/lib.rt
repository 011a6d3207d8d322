//! The kinds of blocks, their values, and the widths that they need.
#![tactic(auto)]

mod calls;
mod evaluate;
mod exact;
mod gain;
mod kind;
mod kinds;
mod laws;
mod logic;
mod op;
mod operation;
mod width;

pub use calls::{feeds_through, ports};
pub use evaluate::{greatest_frac, rhs};
pub use kind::{Criterion, GainText, How, Kind, Logic};
pub use laws::{narrow_rows_fit, values_stay_in_type};
pub use op::Op;
pub use operation::resolve;
pub use width::wide_bits;
