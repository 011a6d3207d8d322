use base_fixed_point::FixType;
use std::marker::Model;

/// What a model is compiled to: the numbers of its rows, of its systems and of all their output functions, the types of
/// the inputs of its root by port, and the bytes of its C text.
#[derive(Drop)]
pub struct Compiled {
    /// How many rows the model has.
    pub rows: u32,
    /// How many systems it has, with the root.
    pub systems: u32,
    /// How many output functions these have in all.
    pub functions: u32,
    /// The types of the root's inputs, by port.
    pub inputs: Vec<FixType>,
    /// The C text.
    pub code: Vec<u8>,
}

impl Model for Compiled {
    ghost use Rattle.tool_compiled.specs.Compilation.{Compilation};

    ghost Value = { Compilation };

    ghost view = { λ c. record {
      rows = c.rows;
      systems = c.systems;
      functions = c.functions;
      inputs = c.inputs.items;
      code = c.code.items;
    } };
}
