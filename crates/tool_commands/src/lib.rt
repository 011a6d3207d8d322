//! What each command of the tool does, over any host and sink, up to the text of its ending.
#![tactic(auto)]

mod acting;
mod compiling;
mod driving;
mod generating;

pub use acting::act;
