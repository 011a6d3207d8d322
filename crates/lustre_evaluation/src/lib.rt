//! What expressions and slots of a file of Lustre come to at a tick.
#![tactic(auto)]

mod arithmetic;
mod cause;
mod expressions;
mod frames;
mod outcome;
mod places;

pub use expressions::{View, evaluate};
pub use frames::{Frame, answer, view_of};
pub use outcome::Unmet;
pub use places::names_of;
