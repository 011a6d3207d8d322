use base_fixed_point::FixType;
use c_syntax::Leaf;

/// Where the value of a row is read, and the type of its numbers.
#[derive(Clone, Copy, Debug, PartialEq, Eq, Drop)]
pub struct Source {
    /// The row.
    pub row: u32,
    /// What an expression reads.
    pub leaf: Leaf,
    /// The type of what is read.
    pub number: FixType,
}
