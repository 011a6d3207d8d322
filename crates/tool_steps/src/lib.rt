//! The steps of the tool's commands that need no compiler: a model is read, C is read and started, and a trace or a script is
//! run from a file, over any host and sink.
#![tactic(auto)]

mod accepting;
mod driving;
mod executing;
mod profiling;
mod rows;
mod scripting;
mod starting;
mod tracing;

pub use accepting::{AcceptedFile, accept_file};
pub use driving::driver_in;
pub use executing::exec_code;
pub use profiling::profile_model;
pub use rows::run_rows;
pub use scripting::drive_file;
pub use starting::started;
pub use tracing::run_file;
