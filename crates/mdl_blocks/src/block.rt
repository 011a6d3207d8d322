use crate::kind::BlockKind;
use crate::written::{WrittenTime, WrittenType};

/// What a block is, and what is written for its type and its sample time, which are inherited where blocks of its type
/// have no such parameter.
#[derive(Clone, Copy, Drop)]
pub struct Body<'a> {
    /// What it is, with its parameters.
    pub kind: BlockKind<'a>,
    /// What is written for the type of its output.
    pub type_text: WrittenType,
    /// What is written for its sample time.
    pub time_text: WrittenTime,
}

/// A block of a model.
#[derive(Clone, Copy, Drop)]
pub struct Block<'a> {
    /// Its name, by which lines name it.
    pub name: &'a [u8],
    /// The line that opens its section, from 1.
    pub line: u32,
    /// What it is.
    pub body: Body<'a>,
}
