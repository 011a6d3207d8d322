//! Why a model is refused, the line that says so, and which of several refusals counts.
#![tactic(auto)]

mod display;
mod lines;
mod order;
mod refusal;

pub use display::refusal_text;
pub use lines::earlier;
pub use order::first_refusal;
pub use refusal::{CycleWhat, Many, ModelKind, Refusal, SyntaxKind, TypeWhy};
