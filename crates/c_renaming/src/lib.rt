//! Code renamed in place, its leaves and the functions and procedures that it calls; and copies of code.
#![tactic(auto)]

mod copying;
mod definitions;
mod nodes;
mod renaming;

pub use copying::{copied_cond, copied_expr, copied_stmt, copied_stmts};
pub use definitions::{rename_procedures, rename_pures};
pub use nodes::{call_of_pure, choice};
pub use renaming::{Renaming, rename_body, rename_expr, rename_stmt};
