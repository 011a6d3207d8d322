//! Certificates that no interface of a system has fewer output functions: one is made for outputs with given needs, and
//! any is checked.
#![tactic(auto)]

mod certificate;
mod checking;
mod laws;
mod making;

pub use certificate::{Certificate, Difference};
pub use checking::check;
pub use laws::certified_are_least;
pub use making::make;
