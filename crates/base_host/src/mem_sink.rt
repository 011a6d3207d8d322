// A sink in memory, of which all is known, and which fails where it is set to.
ghost use Rattle.std.specs.Prelude.{◌≡◌, ◌<◌, ◌≤◌, ◌⊎◌, [], ◌++◌, take, min, length, Some, IfOk, OnOk, OnErr, IsErr, Contains};
ghost use Rattle.base_host.specs.Faults.{HasCause, Rose};
ghost use Rattle.base_host.specs.Fakes.{next_count, SinkState};

use crate::call_count::is_due;
use crate::{Failed, Sink};
use std::alloc::Global;
use std::marker::Model;

/// A sink in memory.
#[derive(Drop)]
pub struct MemSink {
    bytes: Vec<u8>,
    fails: Vec<u64>,
    calls: u64,
    piece: usize,
    faults: u64,
    refused: u64,
}

impl Model for MemSink {
    ghost use Rattle.std.specs.Prelude.{◌<◌};
    ghost use Rattle.base_host.specs.Fakes.{SinkState};

    ghost Value = { SinkState };

    ghost view = { λ m. record {
      bytes = m.bytes.items;
      fails = m.fails.items;
      calls = m.calls;
      piece = m.piece;
      faults = m.faults;
      refused = m.refused;
    } };

    ghost invariant = { λ m. 0 < m.piece };
}

impl MemSink {
    /// A sink that takes at most `piece` bytes in a call. `fails` lists the numbers, from 0, of the
    /// calls that are to fail.
    pub fn new(alloc: Global, fails: Vec<u64>, piece: usize) -> MemSink
        requires { 0 < piece }
        ensures { result ≡ record {
          bytes = [];
          fails = fails.items;
          calls = 0;
          piece = piece;
          faults = 0;
          refused = 0;
        } }
    {
        MemSink {
            bytes: Vec::new(alloc),
            fails,
            calls: 0,
            piece,
            faults: 0,
            refused: 0,
        }
    }

    /// The bytes that were written.
    pub fn bytes(&self) -> &[u8]
        ensures { result.now ≡ self.now.bytes }
    {
        &self.bytes
    }

    /// How many calls failed because memory ran out.
    pub fn refused(&self) -> u64
        ensures { result ≡ self.now.refused }
    {
        self.refused
    }
}

impl Sink for MemSink {
    ghost bytes = { λ m. Some m.bytes };

    ghost faults = { λ m. m.faults };

    fn put(&mut self, piece: &[u8]) -> Result<usize, Failed>
        ensures listed { Contains self.old.fails self.old.calls → IsErr result }
        ensures only { IsErr result →
            Contains self.old.fails self.old.calls ⊎ Rose self.old.refused self.new.refused }
        ensures ok { IfOk result (λ n. (n ≡ min self.old.piece (length piece.now))
            × (self.new ≡ record self.old {
              bytes = self.old.bytes ++ take n piece.now;
              calls = next_count self.old.calls;
            })) }
        ensures err { OnErr result (self.new ≡ record self.old {
          calls = next_count self.old.calls;
          faults = next_count self.old.faults;
          refused = self.new.refused;
        }) }
        ensures progress { IfOk result (λ n. 0 < length piece.now → 0 < n) }
        ensures cause { HasCause self.old.faults self.new.faults result }
    {
        if is_due(&self.fails, &mut self.calls) {
            self.faults = self.faults.saturating_add(1);
            return Err(Failed);
        }
        let count = piece.len().min(self.piece);
        if self.bytes.extend_from_slice(&piece[..count]).is_err() {
            self.refused = self.refused.saturating_add(1);
            self.faults = self.faults.saturating_add(1);
            return Err(Failed);
        }
        Ok(count)
    }
}
