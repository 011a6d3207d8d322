//! Reads the text of a model: its tree of sections, or the first error of the text.
#![tactic(auto)]

mod builder;
mod fault;
mod form;
mod reader;
mod strings;

pub use fault::ReadFault;
pub use reader::read_mdl;
