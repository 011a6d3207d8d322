// Bytes of a file that were read, and are not yet taken.
ghost use Rattle.std.specs.Prelude.{◌≡◌, ◌+◌, ◌<◌, ◌≤◌, true, [], drop, length, IfOk, OnErr, IsOk};
ghost use Rattle.std.specs.Io.KnownBytes.{IsAtEnd};
ghost use Rattle.base_host.specs.Faults.{HasCause};
ghost use Rattle.base_host.specs.Reading.{source};
ghost use Rattle.base_host.specs.Buffers.{ReadsOn};

use crate::{Failed, Host};
use std::alloc::{AllocError, Global};
use std::marker::Model;

// How many bytes there is room for.
const ROOM: usize = 65_536;

/// Bytes of a file that were read, and are not yet taken: 65,536 at most. It is seen as these bytes and the room after them.
#[derive(Drop)]
pub struct ReadBuffer {
    bytes: Vec<u8>,
    start: usize,
    end: usize,
}

impl Model for ReadBuffer {
    ghost use Rattle.std.specs.Prelude.{◌≡◌, ◌-◌, ◌≤◌, take, drop, vec_len};
    ghost use Rattle.base_host.specs.Buffers.{ReadAhead};

    ghost Value = { ReadAhead };

    ghost view = { λ b. record {
      bytes = take (b.end - b.start) (drop b.start b.bytes.items);
      room = vec_len b.bytes - b.end;
    } };

    ghost invariant = { λ b. (b.start ≤ b.end) × (b.end ≤ vec_len b.bytes) × (vec_len b.bytes ≡ 65536) };
}

impl ReadBuffer {
    /// A buffer of which nothing was read. All its memory is taken here.
    pub fn new(alloc: Global) -> Result<ReadBuffer, AllocError>
        ensures { IfOk result (λ buffer. buffer.bytes ≡ []) }
    {
        Ok(ReadBuffer {
            bytes: vec![in alloc; 0u8; ROOM]?,
            start: 0,
            end: 0,
        })
    }

    /// The bytes that are not yet taken.
    pub fn bytes(&self) -> &[u8]
        ensures { result.now ≡ self.now.bytes }
    {
        &self.bytes[self.start..self.end]
    }

    /// Takes so many bytes from the front.
    pub fn take(&mut self, count: usize)
        requires { count ≤ length self.old.bytes }
        ensures { self.new.bytes ≡ drop count self.old.bytes }
    {
        self.start += count;
    }

    // Moves the bytes to the front of the room, where they leave more after them.
    fn move_to_front(&mut self)
        ensures same { self.new.bytes ≡ self.old.bytes }
        ensures room { self.new.room + length self.old.bytes ≡ 65536 }
    {
        self.bytes.copy_within(self.start..self.end, 0);
        self.end -= self.start;
        self.start = 0;
    }

    // Reads into the room after the bytes.
    fn read<H: Host>(&mut self, host: &mut H) -> Result<usize, Failed>
        requires room { 0 < self.old.room }
        ensures more { IfOk result (λ n. ReadsOn n self.old.bytes self.new.bytes
            (source (H.rest host.old) (H.given host.old)) (source (H.rest host.new) (H.given host.new))) }
        ensures end { IfOk result (λ n. n ≡ 0 → IsAtEnd (H.rest host.new)) }
        ensures kept { OnErr result (self.new.bytes ≡ self.old.bytes) }
        ensures unread { OnErr result (source (H.rest host.new) (H.given host.new)
            ≡ source (H.rest host.old) (H.given host.old)) }
        ensures sure { H.sure_rest host.old ≡ true → IsOk result × (H.sure_rest host.new ≡ true) }
        ensures cause { HasCause (H.read_faults host.old) (H.read_faults host.new) result }
        ensures files { H.files host.new ≡ H.files host.old }
        ensures written { H.written host.new ≡ H.written host.old }
        ensures write_faults { H.write_faults host.new ≡ H.write_faults host.old }
    {
        let count = host.read(&mut self.bytes[self.end..])?;
        self.end += count;
        Ok(count)
    }

    /// Reads further bytes of the open file after those that are there, and says how many: 0 exactly at its end.
    ///
    /// Fails only where the host counted an error, and leaves the bytes as they are.
    pub fn fill<H: Host>(&mut self, host: &mut H) -> Result<usize, Failed>
        requires room { length self.old.bytes < 65536 }
        ensures more { IfOk result (λ n. ReadsOn n self.old.bytes self.new.bytes
            (source (H.rest host.old) (H.given host.old)) (source (H.rest host.new) (H.given host.new))) }
        ensures end { IfOk result (λ n. n ≡ 0 → IsAtEnd (H.rest host.new)) }
        ensures kept { OnErr result (self.new.bytes ≡ self.old.bytes) }
        ensures unread { OnErr result (source (H.rest host.new) (H.given host.new)
            ≡ source (H.rest host.old) (H.given host.old)) }
        ensures sure { H.sure_rest host.old ≡ true → IsOk result × (H.sure_rest host.new ≡ true) }
        ensures cause { HasCause (H.read_faults host.old) (H.read_faults host.new) result }
        ensures files { H.files host.new ≡ H.files host.old }
        ensures written { H.written host.new ≡ H.written host.old }
        ensures write_faults { H.write_faults host.new ≡ H.write_faults host.old }
    {
        if self.end == self.bytes.len() {
            self.move_to_front();
        }
        self.read(host)
    }
}
