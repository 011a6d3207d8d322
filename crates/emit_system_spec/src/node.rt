/// A node of a system: the own row at a place, or the call of a function, from 1 on, of the child at a place.
#[derive(Clone, Copy, Debug, PartialEq, Eq, Drop)]
pub enum Place {
    /// The own row at a place.
    Row(usize),
    /// A call of a function of a child.
    Call {
        /// The place of the child.
        child: usize,
        /// The number of the function, from 1; a child has at most 32.
        function: u8,
    },
}
