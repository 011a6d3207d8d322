use base_core::Wires;

/// An operator on two values.
#[derive(Clone, Copy, Debug, PartialEq, Eq, Drop)]
pub enum LusOp {
    /// `+`.
    Add,
    /// `-`.
    Sub,
    /// `*`.
    Mul,
    /// `div`, the quotient towards 0.
    Div,
    /// `mod`, the remainder of that quotient.
    Mod,
    /// `=`, of two values of one type.
    Eq,
    /// `<>`, of two values of one type.
    Ne,
    /// `<`.
    Lt,
    /// `<=`.
    Le,
    /// `>`.
    Gt,
    /// `>=`.
    Ge,
    /// `and`; both sides are evaluated.
    And,
    /// `or`; both sides are evaluated.
    Or,
}

/// An expression. A name is its position in its node.
#[derive(Debug, Drop)]
pub enum LusExpr {
    /// A number from 0 on.
    Number(i64),
    /// `true` or `false`.
    Truth(bool),
    /// The value of a name at this tick.
    Name(u32),
    /// The negative of a number.
    Neg(Box<LusExpr>),
    /// The other truth value.
    Not(Box<LusExpr>),
    /// An operator on the left value and the right one.
    Two(LusOp, Box<LusExpr>, Box<LusExpr>),
    /// The first value where the condition holds, else the second.
    If(Box<LusExpr>, Box<LusExpr>, Box<LusExpr>),
    /// The first value at the first tick, the second one later.
    Arrow(Box<LusExpr>, Box<LusExpr>),
    /// The value of a name at the tick before.
    Pre(u32),
}

/// An equation, with the line where it is.
#[derive(Drop)]
pub enum LusEq {
    /// A name has the value of an expression.
    Set {
        /// The line of its first token.
        line: u32,
        /// The position of the name.
        name: u32,
        /// The expression.
        value: LusExpr,
    },
    /// Names have the values of the outputs of an instance of an earlier node.
    Call {
        /// The line of its first token.
        line: u32,
        /// The positions of the names, one for each output.
        names: Wires,
        /// The position of the node in the file.
        node: u32,
        /// An expression for each input.
        values: Vec<LusExpr>,
    },
}
