//! A file of Lustre that keeps the static rules.
#![tactic(auto)]

mod checked;

pub use checked::LusChecked;
