//! The resolver of Lustre: the file that a written file stands for, or the first construct that breaks a static rule.
#![tactic(auto)]

mod calls;
mod equations;
mod exprs;
mod files;
mod given;
mod heads;
mod known;
mod names;
mod nodes;
mod typing;

pub use files::resolve_file;
