//! The texts of types, as a model writes them.
#![tactic(auto)]

mod type_text;

pub use type_text::read_type;
