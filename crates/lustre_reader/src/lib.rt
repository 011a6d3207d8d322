//! The reader of Lustre: bytes to a file that keeps the static rules, or their first error.
#![tactic(auto)]

mod reader;

pub use lustre_checked::LusChecked;
pub use lustre_grammar::ReadLusFault;
pub use reader::read_lustre;
