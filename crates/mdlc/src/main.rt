//! The program: compiles a Simulink model to C.
#![tactic(auto)]

mod held;
mod words;

use base_host::{FileHost, OutSink};
use held::hold_standard;
use std::io;
use std::process::ExitCode;
use tool_entry::run_tool;
use words::words_of;

/// The status when memory runs out.
const NO_MEMORY: u8 = 10;

// Words that are no text ask for nothing.
fn main(rt: HostRuntime) -> ExitCode {
    let _held = hold_standard(&rt);
    let words = match words_of(&rt) {
        Ok(words) => words,
        Err(e) if e.kind() == io::ErrorKind::OutOfMemory => return ExitCode::from(NO_MEMORY),
        Err(_) => Vec::new(rt.alloc()),
    };
    let mut host = FileHost::new(&rt);
    let mut out = OutSink::new(&rt);
    ExitCode::from(run_tool(rt.alloc(), &words, &mut host, &mut out))
}
