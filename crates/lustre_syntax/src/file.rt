use crate::code::LusEq;
use base_core::Text;

/// A node: inputs, outputs and further names, each with its type, and the equations that give all but the inputs.
#[derive(Drop)]
pub struct LusNode {
    /// Its name.
    pub name: Text,
    /// The line of its first token, from 1 on.
    pub line: u32,
    /// How many of its names are inputs.
    pub inputs: u32,
    /// How many of its names are outputs.
    pub outputs: u32,
    /// Its names, inputs first, then outputs; `true` says that the type is `bool`.
    pub names: Vec<(Text, bool)>,
    /// Its equations, in their order.
    pub equations: Vec<LusEq>,
}

/// A file of nodes, each of which is called only by later ones. The last one is run.
#[derive(Drop)]
pub struct LusFile {
    /// The nodes, in their order.
    pub nodes: Vec<LusNode>,
}
