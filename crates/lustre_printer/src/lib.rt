//! The printer of Lustre: a file to a text that is read as that file.
#![tactic(auto)]

mod printing;

pub use printing::print_lustre;
