// A file as it is written: names of the text in place of positions, with the lines of what a rule may refuse.
use c_grammar::Number;
use lustre_syntax::LusOp;

/// A name that is read, with its line.
#[derive(Clone, Copy, Drop)]
pub struct LusWord<'a> {
    /// The line where it is, from 1.
    pub line: u32,
    /// The name, as it is written.
    pub text: &'a [u8],
}

/// An expression.
#[derive(Drop)]
pub enum LusWrittenExpr<'a> {
    /// A number from 0 on.
    Number(Number),
    /// `true` or `false`.
    Truth(bool),
    /// The value of a name at this tick.
    Name(LusWord<'a>),
    /// The negative of a number.
    Neg(Box<LusWrittenExpr<'a>>),
    /// The other truth value.
    Not(Box<LusWrittenExpr<'a>>),
    /// An operator on the left value and the right one.
    Two(LusOp, Box<LusWrittenExpr<'a>>, Box<LusWrittenExpr<'a>>),
    /// The first value where the condition holds, else the second.
    If(Box<LusWrittenExpr<'a>>, Box<LusWrittenExpr<'a>>, Box<LusWrittenExpr<'a>>),
    /// The first value at the first tick, the second one later.
    Arrow(Box<LusWrittenExpr<'a>>, Box<LusWrittenExpr<'a>>),
    /// The value of a name at the tick before.
    Pre(LusWord<'a>),
}

/// An equation, with the line of its first token.
#[derive(Drop)]
pub enum LusWrittenEq<'a> {
    /// A name has the value of an expression.
    Set {
        /// The line of its first token, from 1.
        line: u32,
        /// The name that it gives, as it is written.
        given: &'a [u8],
        /// The expression.
        value: LusWrittenExpr<'a>,
    },
    /// Names have the values of the outputs of an instance of a node.
    Call {
        /// The line of its first token, from 1.
        line: u32,
        /// The names that it gives, as they are written.
        given: Vec<&'a [u8]>,
        /// The name of the node, as it is written.
        callee: &'a [u8],
        /// An expression for each input.
        values: Vec<LusWrittenExpr<'a>>,
    },
}

/// A declared name with its type.
#[derive(Clone, Copy, Drop)]
pub struct LusWrittenDecl<'a> {
    /// The line where the name is, from 1.
    pub line: u32,
    /// The name, as it is written.
    pub name: &'a [u8],
    /// Whether its type is `bool`, else it is `int`.
    pub is_bool: bool,
}

/// A node.
#[derive(Drop)]
pub struct LusWrittenNode<'a> {
    /// The line of its first token, from 1.
    pub line: u32,
    /// Its name, as it is written.
    pub name: &'a [u8],
    /// Its inputs, in order.
    pub inputs: Vec<LusWrittenDecl<'a>>,
    /// Its outputs, in order.
    pub outputs: Vec<LusWrittenDecl<'a>>,
    /// Its further names, in order.
    pub others: Vec<LusWrittenDecl<'a>>,
    /// Its equations, in order.
    pub equations: Vec<LusWrittenEq<'a>>,
}

/// A file.
#[derive(Drop)]
pub struct LusWrittenFile<'a> {
    /// Its nodes, in order.
    pub nodes: Vec<LusWrittenNode<'a>>,
}
