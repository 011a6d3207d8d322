use c_syntax::Program;

/// The program of a diagram, and how many systems and output functions it has.
#[derive(Drop)]
pub struct Emitted {
    /// The program.
    pub program: Program,
    /// How many systems there are.
    pub systems: u32,
    /// How many output functions all systems have together.
    pub functions: u32,
}
