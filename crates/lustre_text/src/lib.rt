//! The text of Lustre of a model, and why it is right.
#![tactic(auto)]

mod text;

pub use text::lustre_text;
