//! Names of a C text in tables, the outputs among them, and what a caller of the root of a lawful program gives and gets.
#![tactic(auto)]

mod interface;
mod name_table;
mod outputs;

pub use interface::check_root;
pub use name_table::{NameTable, table_of, table_of_texts};
pub use outputs::{looks_like_output, output_names};
