use c_syntax::{Cond, Stmt};

/// An `if`, with what is done where its test holds and where it fails.
#[derive(Drop)]
pub(crate) struct Choice {
    pub(crate) line: u32,
    pub(crate) test: Cond,
    pub(crate) yes: Vec<Stmt>,
    pub(crate) no: Vec<Stmt>,
}
