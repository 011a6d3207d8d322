//! The grammar of Lustre: tokens, files as they are written, the first error of tokens that spell none, and the parse by
//! recursive descent, which agrees with the grammar.
#![tactic(auto)]

mod laws;
mod openers;
mod written;

pub use c_grammar::ReadCFault as ReadLusFault;
pub use laws::parsing_agrees;
pub use openers::{Inside, Joint};
pub use written::{
    LusWord, LusWrittenDecl, LusWrittenEq, LusWrittenExpr, LusWrittenFile, LusWrittenNode,
};
