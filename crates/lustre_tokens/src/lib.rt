//! The tokens of a text of Lustre: where each begins and ends, and what it stands for.
#![tactic(auto)]

mod bytes;
mod tokens;
mod words;

pub use tokens::Tokens;
pub use words::{inside_of, is_lustre_name, is_opener, joint_of_text, leaf_of, type_of_text};
