// The lines of a file, which is read piece by piece.
ghost use Rattle.std.specs.Prelude.{◌≡◌, ◌≢◌, ◌≤◌, [], false, Err, IfOk, OnOk, IsErrOf};
ghost use Rattle.std.specs.Io.KnownBytes.{IsAtEnd};
ghost use Rattle.base_host.specs.Faults.{HasCauseOf};
ghost use Rattle.base_host.specs.Reading.{source, OnlyReads};
ghost use Rattle.tool_stream.specs.Walks.{place};
ghost use Rattle.tool_stream.specs.Files.{WalksFile};

use crate::fault::StreamFault;
use crate::line_walk::LineWalk;
use crate::lines::{walk_last, walk_lines};
use base_host::{Host, PutBuffer, ReadBuffer, Sink};
use std::alloc::{AllocError, Global};

/// What a walk over a file holds: bytes that were read, and outputs that wait to be printed.
#[derive(Drop)]
pub struct Stream {
    /// The bytes that were read, and are not yet walked over.
    pub read: ReadBuffer,
    /// The outputs that wait to be printed.
    pub waiting: PutBuffer,
}

impl Stream {
    /// A stream of which nothing was read. All its memory is taken here.
    pub fn new(alloc: Global) -> Result<Stream, AllocError>
        ensures unread { IfOk result (λ stream. stream.read.bytes ≡ []) }
        ensures empty { IfOk result (λ stream. stream.waiting ≡ []) }
    {
        Ok(Stream {
            read: ReadBuffer::new(alloc)?,
            waiting: PutBuffer::new(alloc)?,
        })
    }

    /// Walks over the lines of the open file, and prints their outputs. The file is read piece by piece: the whole lines of each
    /// piece, with what was left of the piece before it, and the last line at the end. All outputs of the lines that were read are
    /// printed before it is read on.
    ///
    /// # Errors
    ///
    /// `Line` exactly at the first line that ends the walk, `Put` only where the sink counted an error, and `Read` only where the
    /// host did. The outputs of the lines before stay, at `Put` a front of them, at `Read` those of all whole lines among the bytes
    /// that were read.
    pub fn walk_file<W: LineWalk, H: Host, S: Sink>(
        &mut self,
        walk: &mut W,
        machine: &mut W::Machine,
        host: &mut H,
        sink: &mut S,
    ) -> Result<(), StreamFault<W::Stop>>
        requires ready { W.ready (walk.old, machine.old) }
        requires few { W.count walk.old ≤ 4294967295 }
        requires unread { self.old.read.bytes ≡ [] }
        requires empty { self.old.waiting ≡ [] }
        ensures walked { WalksFile W.steps (λ a. W.said a.0) W.stops result
            (source (H.rest host.old) (H.given host.old)) (source (H.rest host.new) (H.given host.new))
            (place (walk.old, machine.old) (S.bytes sink.old) [])
            (place (walk.new, machine.new) (S.bytes sink.new) []) }
        ensures end { OnOk result (IsAtEnd (H.rest host.new)) }
        ensures read { HasCauseOf StreamFault.Read (H.read_faults host.old) (H.read_faults host.new)
            result }
        ensures unsure { IsErrOf result StreamFault.Read → H.sure_rest host.old ≡ false }
        ensures only_reads { OnlyReads H.files H.written H.write_faults host.old host.new }
        ensures put { HasCauseOf StreamFault.Put (S.faults sink.old) (S.faults sink.new) result }
    {
        loop {
            let Ok(count) = self.read.fill(host) else {
                return Err(StreamFault::Read);
            };
            if count == 0 {
                return walk_last(walk, machine, self.read.bytes(), &mut self.waiting, sink);
            }
            let done = walk_lines(walk, machine, self.read.bytes(), &mut self.waiting, sink)?;
            self.read.take(done);
        }
    }
}
