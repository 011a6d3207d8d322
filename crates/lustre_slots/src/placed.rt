/// An instance of a node, with its slots.
#[derive(Clone, Copy, Debug, PartialEq, Eq, Drop)]
pub struct Placed {
    /// The position of the node in the file.
    pub node: usize,
    /// The slot of its first name; the others follow in their order.
    pub base: usize,
}

/// What gives a slot its value.
#[derive(Clone, Copy, Debug, PartialEq, Eq, Drop)]
pub enum Source {
    /// The row of a tick: the slot is an input of the last node.
    Row,
    /// An expression of an instance.
    Expression {
        /// The instance whose names it reads.
        of: Placed,
        /// The position of the equation in the node.
        equation: usize,
        /// The position of the expression in the equation.
        expression: usize,
    },
    /// Another slot: an output of a call.
    Slot(usize),
}
