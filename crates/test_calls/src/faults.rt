// Commands over hosts and sinks in memory of which some calls fail, as tables of tests describe them.

use crate::answer::{Answer, called_in_pieces};
use crate::files::Files;
use std::alloc::{AllocError, Global};

/// The calls of the host and those of the sink that fail, by their numbers from 0, and how many bytes each moves at most;
/// 0 is taken as 1.
pub type Faults = (&'static [u64], &'static [u64], usize);

/// No calls.
pub const NONE: &[u64] = &[];

/// No call fails, and each moves 4,096 bytes at most.
pub const NO_FAULT: Faults = (NONE, NONE, 4096);

/// How a command ends: the status, the text that is printed, in which a `*` stands for any bytes, and how many files are
/// written.
pub type End = (u8, &'static str, usize);

impl Answer {
    /// Whether it ended so.
    pub fn is_end(&self, end: End) -> bool {
        let (status, text, files) = end;
        self.ended_with(status, text, files)
    }
}

/// How a command ends over a host with three files, where these calls fail.
///
/// Fails only when memory runs out.
pub fn called_so(
    alloc: Global,
    line: &str,
    files: Files<'_>,
    faults: Faults,
) -> Result<Answer, AllocError> {
    let (fails, put_fails, piece) = faults;
    called_in_pieces(alloc, line, files, fails, put_fails, piece.max(1))
}
