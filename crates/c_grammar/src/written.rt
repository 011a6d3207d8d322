// A program as it is written: names of the text in place of positions, with the lines of what a rule may refuse.
ghost use Rattle.std.specs.Prelude.{ℕ, ◌<◌, ◌^◌};

use base_core::Compare;
use c_syntax::{BinOp, CType};

/// A literal: at most 63 bits.
#[derive(Clone, Copy, Drop)]
pub struct Number {
    /// What it stands for.
    pub value: u64,
    pub ghost small: { value < 2 ^ 63 },
}

/// What an expression reads: a parameter, a field, or a field of a field, by name.
#[derive(Clone, Copy, Drop)]
pub enum WrittenLeaf<'a> {
    /// A parameter.
    Param(&'a [u8]),
    /// A field of the own struct.
    Own(&'a [u8]),
    /// In the struct that the first own field holds, its field of the second name.
    Child(&'a [u8], &'a [u8]),
}

/// An expression.
#[derive(Drop)]
#[cycle(written)]
pub enum WrittenExpr<'a> {
    /// A number from 0 on.
    Literal(Number),
    /// The negative of a number.
    Neg(Box<WrittenExpr<'a>>),
    /// What a leaf stands for, with the line of the leaf.
    Read {
        line: u32,
        leaf: WrittenLeaf<'a>,
    },
    /// An operator on the left number and the right one.
    Binary(BinOp, Box<WrittenExpr<'a>>, Box<WrittenExpr<'a>>),
    /// The first number where the condition holds, else the second.
    Pick(Box<WrittenCond<'a>>, Box<WrittenExpr<'a>>, Box<WrittenExpr<'a>>),
    /// A call of a pure function, with the line of its name.
    Pure {
        line: u32,
        function: &'a [u8],
        values: Vec<WrittenExpr<'a>>,
    },
    /// The item at an index of the array that an own field is, with the line of its `s`.
    Item {
        line: u32,
        field: &'a [u8],
        index: Box<WrittenExpr<'a>>,
    },
}

/// A condition.
#[derive(Drop)]
#[cycle(written)]
pub enum WrittenCond<'a> {
    /// Two numbers compare so.
    Compare(Compare, WrittenExpr<'a>, WrittenExpr<'a>),
    /// Both hold.
    Both(Box<WrittenCond<'a>>, Box<WrittenCond<'a>>),
    /// One of them holds.
    Either(Box<WrittenCond<'a>>, Box<WrittenCond<'a>>),
    /// It doesn't hold.
    Not(Box<WrittenCond<'a>>),
}

/// Whose procedure is called.
#[derive(Clone, Copy, Drop)]
pub enum WrittenTarget<'a> {
    /// One of the own struct, on `s`.
    Own,
    /// One of the struct that an own field holds.
    Field(&'a [u8]),
}

/// A value with its cast: an argument of a call of a procedure, or what is stored.
#[derive(Drop)]
pub struct Argument<'a> {
    /// The type in the cast.
    pub cast: CType,
    /// What is cast.
    pub value: WrittenExpr<'a>,
}

/// A statement, with the line of its first token.
#[derive(Drop)]
#[cycle(written_statement)]
pub enum WrittenStmt<'a> {
    /// A store in an own field.
    Set {
        line: u32,
        field: &'a [u8],
        cast: CType,
        value: WrittenExpr<'a>,
    },
    /// A store in the item at an index of the array that an own field is.
    SetAt {
        line: u32,
        field: &'a [u8],
        index: WrittenExpr<'a>,
        cast: CType,
        value: WrittenExpr<'a>,
    },
    /// A choice between statements; without an `else` there are none on the other side.
    If {
        line: u32,
        test: WrittenCond<'a>,
        yes: Vec<WrittenStmt<'a>>,
        has_else: bool,
        no: Vec<WrittenStmt<'a>>,
    },
    /// A call of a procedure, by its name.
    Call {
        line: u32,
        procedure: &'a [u8],
        target: WrittenTarget<'a>,
        values: Vec<Argument<'a>>,
    },
}

/// A parameter of a procedure.
#[derive(Clone, Copy, Drop)]
pub struct WrittenParam<'a> {
    /// The line where it begins, from 1.
    pub line: u32,
    /// Its type.
    pub ty: CType,
    /// Its name, as written.
    pub name: &'a [u8],
}

/// A parameter of a pure function, which is an `int64_t`.
#[derive(Clone, Copy, Drop)]
pub struct WrittenPureParam<'a> {
    /// The line where it begins, from 1.
    pub line: u32,
    /// Its name, as written.
    pub name: &'a [u8],
}

/// A pure function, with the line of its `return`.
#[derive(Drop)]
pub struct WrittenPure<'a> {
    /// The line where it begins, from 1.
    pub line: u32,
    /// Its name, as written.
    pub name: &'a [u8],
    /// Its parameters, in order.
    pub params: Vec<WrittenPureParam<'a>>,
    /// The line of its `return`, from 1.
    pub return_line: u32,
    /// What it returns.
    pub body: WrittenExpr<'a>,
}

/// What a field is declared as: a number of a type, so many of them, or a struct by its name.
#[derive(Clone, Copy, Drop)]
pub enum WrittenKind<'a> {
    /// A number of a type.
    Number(CType),
    /// An array of numbers of a type, with its length as written.
    Array(CType, Number),
    /// A struct, by its name.
    Struct(&'a [u8]),
}

/// A field of a struct.
#[derive(Clone, Copy, Drop)]
pub struct WrittenField<'a> {
    /// The line where it begins, from 1.
    pub line: u32,
    /// What it is declared as.
    pub kind: WrittenKind<'a>,
    /// Its name, as written.
    pub name: &'a [u8],
}

/// A struct.
#[derive(Drop)]
pub struct WrittenStruct<'a> {
    /// The line where it begins, from 1.
    pub line: u32,
    /// Its name, as written.
    pub name: &'a [u8],
    /// Its fields, in order.
    pub fields: Vec<WrittenField<'a>>,
}

/// A procedure of the struct that `of` names.
#[derive(Drop)]
pub struct WrittenProcedure<'a> {
    /// The line where it begins, from 1.
    pub line: u32,
    /// Whether it is `static`.
    pub private: bool,
    /// Its name, as written.
    pub name: &'a [u8],
    /// The name of its struct, as written.
    pub of: &'a [u8],
    /// Its parameters after the struct, in order.
    pub params: Vec<WrittenParam<'a>>,
    /// Its statements, in order.
    pub body: Vec<WrittenStmt<'a>>,
}

/// A program.
#[derive(Drop)]
pub struct WrittenProgram<'a> {
    /// Its pure functions, in order.
    pub pures: Vec<WrittenPure<'a>>,
    /// Its structs, in order.
    pub structs: Vec<WrittenStruct<'a>>,
    /// Its procedures, in order.
    pub procedures: Vec<WrittenProcedure<'a>>,
}
