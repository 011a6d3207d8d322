//! Runs a script on a driver: one line for each call of an output function.
#![tactic(auto)]

mod answers;
mod calls;
mod laws;
mod line;
mod lines;
mod outcome;
mod run;
mod script_file;
mod texts;

pub use laws::{answers_are_right, scripts_are_driven};
pub use outcome::{RefusedCall, ScriptFault};
pub use script_file::run_script;
pub use texts::{bad_call_line, refused_call_line};
