use crate::code::{CType, Expr, Stmt};
use base_core::Text;
use std::marker::Model;

/// What a field holds: a number, an array of numbers, or an instance of a struct.
#[derive(Clone, Copy, Debug, PartialEq, Eq, Drop)]
pub enum FieldKind {
    /// A number of a type.
    Number(CType),
    /// An array of items of a type; its length is 1 to 65,535.
    Array(CType, u32),
    /// An instance of the struct at a position.
    Struct(u32),
}

/// A field of a struct.
#[derive(Drop)]
pub struct Field {
    /// Its name, which differs from those of the struct's other fields.
    pub name: Text,
    /// What it holds.
    pub kind: FieldKind,
}

/// A pure function: it returns its body.
#[derive(Drop)]
pub struct Pure {
    /// Its name.
    pub name: Text,
    /// The names of its parameters, all of `int64_t`.
    pub params: Vec<Text>,
    /// What it returns.
    pub body: Expr,
    /// The line of its `return`.
    pub line: u32,
}

/// A struct, seen as its name and the list of its fields.
#[derive(Drop)]
pub struct StructDef {
    /// Its name.
    pub name: Text,
    /// Its fields, in their order.
    pub fields: Vec<Field>,
}

impl Model for StructDef {
    ghost use Rattle.c_syntax.specs.Tree.{StructTree};

    ghost Value = { StructTree };

    ghost use Rattle.c_syntax.specs.PlainField.{field_trees};

    ghost view = { λ s. record { name = s.name; fields = field_trees s.fields.items } };
}

/// A procedure.
#[derive(Drop)]
pub struct Procedure {
    /// Its name.
    pub name: Text,
    /// Whether it is `static`.
    pub private: bool,
    /// The position of the struct whose instances it is called on.
    pub of: u32,
    /// The names and types of its parameters after `s`.
    pub params: Vec<(Text, CType)>,
    /// Its statements, in their order.
    pub body: Vec<Stmt>,
}

/// A program. What is in it uses only what is before it.
#[derive(Drop)]
pub struct Program {
    /// The pure functions.
    pub pure: Vec<Pure>,
    /// The structs.
    pub structs: Vec<StructDef>,
    /// The procedures.
    pub procedures: Vec<Procedure>,
}
