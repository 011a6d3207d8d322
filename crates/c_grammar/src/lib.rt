//! The grammar of C: tokens, programs as they are written, and the parse by recursive descent, which agrees with the grammar.
#![tactic(auto)]

mod fault;
mod laws;
mod openers;
mod written;

pub use fault::ReadCFault;
pub use laws::parsing_agrees;
pub use openers::{
    Comma, Definition, Inside, Opener, StmtOpener, Tail, TargetOpener, TestJoint, ValueJoint, Want,
};
pub use written::{
    Argument, Number, WrittenCond, WrittenExpr, WrittenField, WrittenKind, WrittenLeaf,
    WrittenParam, WrittenProcedure, WrittenProgram, WrittenPure, WrittenPureParam, WrittenStmt,
    WrittenStruct, WrittenTarget,
};
