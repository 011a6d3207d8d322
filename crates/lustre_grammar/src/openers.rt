// What a token begins, where something may be.
use lustre_syntax::LusOp;

/// What a token after the `(` of an expression begins.
#[derive(Clone, Copy, Drop)]
pub enum Inside {
    /// A negative number, after `-`.
    Minus,
    /// The other truth value, after `not`.
    Not,
    /// A choice, after `if`.
    If,
    /// The value of a name at the tick before, after `pre`.
    Pre,
    /// The first of two operands.
    First,
}

/// What joins two operands.
#[derive(Clone, Copy, Drop)]
pub enum Joint {
    /// An operator.
    Operator(LusOp),
    /// `->`.
    Arrow,
}
