//! What the command `lustre` does, over any host and sink, up to the text of its ending.
#![tactic(auto)]

mod making;

pub use making::make_lustre;
