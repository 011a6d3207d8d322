// Bytes that wait to be written, so that a sink takes them in blocks.
ghost use Rattle.std.specs.Prelude.{◌≡◌, [], ◌++◌, IfOk, OnOk, OnErr};
ghost use Rattle.std.specs.Io.KnownBytes.{append_known};
ghost use Rattle.base_host.specs.Faults.{HasCause};
ghost use Rattle.base_host.specs.Files.{PutsFront};
ghost use Rattle.base_host.specs.Buffers.{PutsAllBut};

use crate::{Failed, Sink, put_all};
use std::alloc::{AllocError, Global};
use std::marker::Model;

// How many bytes wait at most.
const BLOCK: usize = 65_536;

/// Bytes that wait to be written. It is seen as these bytes.
#[derive(Drop)]
pub struct PutBuffer {
    bytes: Vec<u8>,
}

impl Model for PutBuffer {
    ghost use Rattle.std.specs.Prelude.{ℕ, List, ◌≤◌, vec_capacity};

    ghost Value = { List ℕ };

    ghost view = { λ b. b.bytes.items };

    ghost invariant = { λ b. 65536 ≤ vec_capacity b.bytes };
}

impl PutBuffer {
    /// A buffer in which nothing waits. All its memory is taken here.
    pub fn new(alloc: Global) -> Result<PutBuffer, AllocError>
        ensures { IfOk result (λ buffer. buffer ≡ []) }
    {
        Ok(PutBuffer {
            bytes: Vec::with_capacity(alloc, BLOCK)?,
        })
    }

    /// Takes the bytes, and writes those that waited before where they would be too many.
    ///
    /// Fails only where the sink counted an error. Then a front of what waited and of the bytes was written, and the rest lost.
    pub fn put<S: Sink>(&mut self, sink: &mut S, bytes: &[u8]) -> Result<(), Failed>
        ensures taken { OnOk result (PutsAllBut self.new (self.old ++ bytes.now) (S.bytes sink.old)
            (S.bytes sink.new)) }
        ensures front { OnErr result
            (PutsFront (S.bytes sink.old) (S.bytes sink.new) (self.old ++ bytes.now)) }
        ensures cause { HasCause (S.faults sink.old) (S.faults sink.new) result }
    {
        if bytes.len() <= self.bytes.capacity() - self.bytes.len() {
            // There is room for them.
            let _ = self.bytes.extend_from_slice(bytes);
            return Ok(());
        }
        self.flush(sink)?;
        self.begin(sink, bytes)
    }

    // Takes bytes where nothing waits, or writes them at once where there is no room for so many.
    fn begin<S: Sink>(&mut self, sink: &mut S, bytes: &[u8]) -> Result<(), Failed>
        requires { self.old ≡ [] }
        ensures taken { OnOk result (PutsAllBut self.new bytes.now (S.bytes sink.old) (S.bytes sink.new)) }
        ensures front { OnErr result (PutsFront (S.bytes sink.old) (S.bytes sink.new) bytes.now) }
        ensures cause { HasCause (S.faults sink.old) (S.faults sink.new) result }
    {
        if self.bytes.capacity() < bytes.len() {
            return put_all(sink, bytes);
        }
        let _ = self.bytes.extend_from_slice(bytes);
        Ok(())
    }

    /// Writes all that waits.
    ///
    /// Fails only where the sink counted an error. Then a front was written, and the rest is lost.
    pub fn flush<S: Sink>(&mut self, sink: &mut S) -> Result<(), Failed>
        ensures empty { self.new ≡ [] }
        ensures whole { OnOk result (S.bytes sink.new ≡ append_known (S.bytes sink.old) self.old) }
        ensures front { OnErr result (PutsFront (S.bytes sink.old) (S.bytes sink.new) self.old) }
        ensures cause { HasCause (S.faults sink.old) (S.faults sink.new) result }
    {
        let put = put_all(sink, &self.bytes);
        self.bytes.clear();
        put
    }
}
