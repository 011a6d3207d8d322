//! A file of Lustre and C that are right for one model give the same over each trace.
#![tactic(auto)]

mod laws;

pub use laws::back_ends_agree;
