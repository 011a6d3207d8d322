// The names that expressions read, in a node of a system and in that of a function.
ghost use Rattle.std.specs.Prelude.{◌≡◌, map};
ghost use Rattle.emit_prelude.specs.Bodies.{function_trees};

use crate::places::Places;
use base_core::{Control, Port, Text};
use c_syntax::Pure;

/// The nodes of a file by their names, with the pure functions of the emitted C.
#[derive(Drop)]
pub struct Callees<'k, 'a> {
    /// The places of the names of nodes.
    pub places: &'k Places<'a>,
    /// The pure functions.
    pub functions: &'k [Pure],
    pub ghost prelude: { map (λ f. f.name) functions.now ≡ map (λ p. p.name) function_trees },
}

/// The names of a system's node, where expressions of one row are read.
#[derive(Drop)]
pub struct RowNames<'k, 'a, 'n, 'b> {
    /// The places of the node's names.
    pub places: &'k Places<'a>,
    /// The nodes that it may call.
    pub callees: &'k Callees<'n, 'b>,
    /// How the system is controlled.
    pub control: Control,
    /// The inputs of the system.
    pub ports: &'k [Port],
    /// The row whose expressions are read; with none, calls have no names.
    pub row: Option<u32>,
}

/// The names of a function's node.
#[derive(Drop)]
pub struct ParamNames<'k, 'a, 'n, 'b> {
    /// The places of the node's names.
    pub places: &'k Places<'a>,
    /// The nodes that it may call.
    pub callees: &'k Callees<'n, 'b>,
    /// The function's parameters.
    pub params: &'k [Text],
}
