//! Programs of C as trees: types, expressions, statements, procedures; which of them are lawful; and why a text is none.
#![tactic(auto)]

mod code;
mod fault;
mod params;
mod program;

pub use code::{BinOp, CType, Cond, Expr, Leaf, Stmt, Target};
pub use fault::{CFault, CKind, Cost, Stuck, Why};
pub use params::copied_params;
pub use program::{Field, FieldKind, Procedure, Program, Pure, StructDef};
