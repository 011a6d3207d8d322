//! Walks over the lines of a file, with an output for each: read in pieces, printed in blocks, up to the first error.
#![tactic(auto)]

mod fault;
mod line_walk;
mod lines;
mod stream;

pub use fault::StreamFault;
pub use line_walk::LineWalk;
pub use lines::walk_text;
pub use stream::Stream;
