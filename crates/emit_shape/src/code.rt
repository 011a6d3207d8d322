use c_syntax::{Procedure, StructDef};

/// A system's struct and procedures, and by port the position of each output's field. A number of a procedure counts the
/// system's own first, then for each child in order its output functions, update, start and reset; a child's struct has
/// the child's position, and a field of a child is named by the child's output, from 0 by port.
#[derive(Drop)]
pub struct SystemCode {
    /// The system's struct.
    pub structure: StructDef,
    /// The position of each output's field in the struct, by port.
    pub outputs: Vec<u32>,
    /// Its procedures, in the order of their numbers.
    pub procedures: Vec<Procedure>,
}
