//! The tokens of a C text: where each begins and ends, what it stands for, and what it opens.
#![tactic(auto)]

mod bytes;
mod laws;
mod lines;
mod openers;
mod tokens;
mod words;

pub use bytes::{digits_len, is_white_space, is_word_start, word_len};
pub use laws::lists_continue;
pub use lines::{last_line, line_past};
pub use openers::{
    comma_of, definition_of, inside_of, opener_of, stmt_opener_of, tail_of, target_opener_of,
    test_joint, value_joint,
};
pub use tokens::{Token, Tokens};
pub use words::{is, is_name, literal_of_text, type_of_text};
