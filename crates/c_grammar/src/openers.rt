// What a token opens, where something may be.
ghost use Rattle.std.specs.Prelude.{◌≡◌};
ghost use Rattle.c_grammar.specs.Parsing as parsing;

use base_core::Compare;
use c_syntax::BinOp;

/// What is wanted of an operand.
#[derive(Clone, Copy, Drop)]
pub enum Want {
    /// An expression.
    Value,
    /// A condition.
    Test,
    /// Either of them.
    Any,
}

impl Want {
    /// An expression may be here.
    pub fn takes_value(self) -> bool
        ensures { result ≡ parsing.wants_value self }
    {
        match self {
            Want::Value | Want::Any => true,
            Want::Test => false,
        }
    }

    /// A condition may be here.
    pub fn takes_test(self) -> bool
        ensures { result ≡ parsing.wants_test self }
    {
        match self {
            Want::Test | Want::Any => true,
            Want::Value => false,
        }
    }
}

/// What a token opens where an operand is wanted.
#[derive(Clone, Copy, Drop)]
pub enum Opener {
    /// A literal, `INT64_C`.
    Number,
    /// A call of a pure function, by its name.
    Call,
    /// A `(`.
    Paren,
    /// No operand.
    Nothing,
}

/// What a token after the `(` of an operand begins.
#[derive(Clone, Copy, Drop)]
pub enum Inside {
    /// A negative expression.
    Minus,
    /// A negated condition.
    Not,
    /// A cast, and what is read after it.
    Cast,
    /// The first of two or three operands.
    First,
}

/// What a token after the name of an own field begins.
#[derive(Clone, Copy, Drop)]
pub enum Tail {
    /// A field of that field, after a `.`.
    Dot,
    /// The index of an item of that array, after a `[`.
    Bracket,
    /// Nothing: the field itself is meant.
    Nothing,
}

/// What a token after an expression joins it to.
#[derive(Clone, Copy, Drop)]
pub enum ValueJoint {
    /// A second expression, by an operator.
    Operator(BinOp),
    /// A second expression, by a comparison.
    Comparison(Compare),
    /// Nothing.
    Nothing,
}

/// What a token after a condition that is the first operand joins it to.
#[derive(Clone, Copy, Drop)]
pub enum TestJoint {
    /// A second condition, both of which hold.
    And,
    /// A second condition, one of which holds.
    Or,
    /// The two expressions of a choice.
    Pick,
    /// Nothing.
    Nothing,
}

/// What a token opens where a statement may be.
#[derive(Clone, Copy, Drop)]
pub enum StmtOpener {
    /// A store in a field.
    Store,
    /// A choice between statements.
    If,
    /// A call of a procedure, by its name.
    Call,
    /// No statement.
    Nothing,
}

/// What is between the elements of a list in parentheses, and at its end.
#[derive(Clone, Copy, Drop)]
pub enum Comma {
    /// A comma: one more element follows.
    Another,
    /// The `)` at the end.
    Closed,
    /// Neither.
    Nothing,
}

/// What a token opens where the target of a call is wanted.
#[derive(Clone, Copy, Drop)]
pub enum TargetOpener {
    /// The own struct, `s`.
    Own,
    /// A field of it, after `&`.
    Field,
    /// No target.
    Nothing,
}

/// What a definition begins with.
#[derive(Clone, Copy, Drop)]
pub enum Definition {
    /// `static`: a pure function or a private procedure.
    Static,
    /// `struct`.
    Struct,
    /// `void`: a procedure that others may call.
    Void,
    /// No definition.
    Nothing,
}
