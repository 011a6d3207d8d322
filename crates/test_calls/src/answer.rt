ghost use Rattle.std.specs.Prelude.{◌<◌};

use crate::files::{Files, model_file};
use base_host::{MemHost, MemSink};
use std::alloc::{AllocError, Global};
use tool_entry::run_tool;

/// How a call of the tool ended over a host and a sink in memory.
#[derive(Drop)]
pub struct Answer {
    /// The status.
    pub status: u8,
    /// What was printed.
    pub text: Vec<u8>,
    /// The bytes of the files that were written, one after another.
    pub code: Vec<u8>,
    /// How many files were written.
    pub files: usize,
    /// How many calls ran out of memory.
    pub refused: u64,
}

impl Answer {
    /// Whether it ended with this status, printed this text, in which a `*` stands for any bytes, and wrote so many files.
    pub fn ended_with(&self, status: u8, text: &str, files: usize) -> bool {
        self.status == status && self.files == files && is_like(&self.text, text)
    }
}

// Whether a text is the expected one, in which a `*` stands for any bytes.
fn is_like(text: &[u8], expected: &str) -> bool {
    match expected.split_once("*") {
        Some((front, end)) => match text.strip_prefix(front.as_bytes()) {
            Some(rest) => rest.ends_with(end.as_bytes()),
            None => false,
        },
        None => text == expected.as_bytes(),
    }
}

/// The words of a command, which spaces part.
///
/// Fails only when memory runs out.
pub fn words_of(alloc: Global, line: &str) -> Result<Vec<String>, AllocError> {
    let mut words = Vec::new(alloc);
    for word in line.split(' ') {
        words.push(String::from_str(alloc, word)?)?;
    }
    Ok(words)
}

/// How a command ends over a host with these files. The calls of the host and of the sink with these numbers, from 0, fail,
/// and each moves so many bytes at most.
///
/// Fails only when memory runs out.
pub fn called_on(
    alloc: Global,
    line: &str,
    files: Vec<(String, Vec<u8>)>,
    fails: &[u64],
    put_fails: &[u64],
    piece: usize,
) -> Result<Answer, AllocError>
    requires { 0 < piece }
{
    let words = words_of(alloc, line)?;
    let mut host = MemHost::new(alloc, files, fails.to_vec(alloc)?, piece);
    let mut out = MemSink::new(alloc, put_fails.to_vec(alloc)?, piece);
    let status = run_tool(alloc, &words, &mut host, &mut out);
    let mut code = Vec::new(alloc);
    for file in host.written() {
        code.extend_from_slice(&file.1)?;
    }
    Ok(Answer {
        status,
        text: out.bytes().to_vec(alloc)?,
        code,
        files: host.written().len(),
        refused: host.refused().saturating_add(out.refused()),
    })
}

/// The same over a host with the one file `a.mdl`.
///
/// Fails only when memory runs out.
pub fn called(
    alloc: Global,
    line: &str,
    model: &[u8],
    fails: &[u64],
    put_fails: &[u64],
    piece: usize,
) -> Result<Answer, AllocError>
    requires { 0 < piece }
{
    let files = model_file(alloc, model)?;
    called_on(alloc, line, files, fails, put_fails, piece)
}

/// The same over a host with three files.
///
/// Fails only when memory runs out.
pub fn called_in_pieces(
    alloc: Global,
    line: &str,
    files: Files<'_>,
    fails: &[u64],
    put_fails: &[u64],
    piece: usize,
) -> Result<Answer, AllocError>
    requires { 0 < piece }
{
    let files = files.named(alloc)?;
    called_on(alloc, line, files, fails, put_fails, piece)
}

/// The same, where a call moves 4,096 bytes at most.
///
/// Fails only when memory runs out.
pub fn called_with(
    alloc: Global,
    line: &str,
    files: Files<'_>,
    fails: &[u64],
    put_fails: &[u64],
) -> Result<Answer, AllocError> {
    called_in_pieces(alloc, line, files, fails, put_fails, 4096)
}

/// How `compile` ends on a model, where no call fails.
///
/// Fails only when memory runs out.
pub fn compiled(alloc: Global, model: &[u8]) -> Result<Answer, AllocError> {
    called(alloc, "compile a.mdl a.c", model, &[], &[], 4096)
}

/// How `exec` ends on code and a trace, where no call fails.
///
/// Fails only when memory runs out.
pub fn executed(alloc: Global, code: &[u8], trace: &[u8]) -> Result<Answer, AllocError> {
    let files = Files {
        model: b"",
        code,
        trace,
    };
    called_with(alloc, "exec b.c t", files, &[], &[])
}
