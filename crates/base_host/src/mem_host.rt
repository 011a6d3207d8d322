// A host in memory, of which all is known, and which fails where it is set to.
ghost use Rattle.std.specs.Prelude.{◌≡◌, ◌<◌, ◌≤◌, ◌↔◌, ◌⊎◌, [], ◌++◌, take, drop, min, length, Some, None, false, IfOk, OnOk, OnErr, IsErr, IsNone, IsSomeAnd, ◌∷◌, Contains};
ghost use Rattle.base_host.specs.Faults.{HasCause, Rose};
ghost use Rattle.base_host.specs.Files.{lookup, grow_last};
ghost use Rattle.base_host.specs.Fakes.{next_count, count_on, files_of, HostState};

use crate::call_count::is_due;
use crate::file_list::{add, content, find, grow};
use crate::{Failed, Host};
use std::alloc::Global;
use std::marker::Model;

/// A host in memory.
#[derive(Drop)]
pub struct MemHost {
    alloc: Global,
    files: Vec<(String, Vec<u8>)>,
    opened: usize,
    at: usize,
    written: Vec<(String, Vec<u8>)>,
    fails: Vec<u64>,
    calls: u64,
    piece: usize,
    given: u64,
    read_faults: u64,
    write_faults: u64,
    refused: u64,
}

impl Model for MemHost {
    ghost use Rattle.std.specs.Prelude.{◌<◌, ◌≤◌, drop, length};
    ghost use Rattle.base_host.specs.Fakes.{HostState, files_of, bytes_at};

    ghost Value = { HostState };

    ghost view = { λ m. record {
      files = files_of m.files.items;
      rest = drop m.at (bytes_at (files_of m.files.items) m.opened);
      written = files_of m.written.items;
      fails = m.fails.items;
      calls = m.calls;
      piece = m.piece;
      given = m.given;
      read_faults = m.read_faults;
      write_faults = m.write_faults;
      refused = m.refused;
    } };

    ghost invariant = { λ m. (0 < m.piece) × (m.at ≤ length (bytes_at (files_of m.files.items) m.opened)) };
}

impl MemHost {
    /// A host with these files, which moves at most `piece` bytes in a call. `fails` lists the numbers,
    /// from 0, of the calls that are to fail.
    pub fn new(
        alloc: Global,
        files: Vec<(String, Vec<u8>)>,
        fails: Vec<u64>,
        piece: usize,
    ) -> MemHost
        requires { 0 < piece }
        ensures { result ≡ record {
          files = files_of files.items;
          rest = [];
          written = [];
          fails = fails.items;
          calls = 0;
          piece = piece;
          given = 0;
          read_faults = 0;
          write_faults = 0;
          refused = 0;
        } }
    {
        let opened = files.len();
        MemHost {
            alloc,
            files,
            opened,
            at: 0,
            written: Vec::new(alloc),
            fails,
            calls: 0,
            piece,
            given: 0,
            read_faults: 0,
            write_faults: 0,
            refused: 0,
        }
    }

    /// The files that were written.
    pub fn written(&self) -> &[(String, Vec<u8>)]
        ensures { files_of result.now ≡ self.now.written }
    {
        &self.written
    }

    /// How many calls failed because memory ran out.
    pub fn refused(&self) -> u64
        ensures { result ≡ self.now.refused }
    {
        self.refused
    }
}

impl Host for MemHost {
    ghost files = { λ m. Some m.files };

    ghost rest = { λ m. Some m.rest };

    ghost given = { λ m. m.given };

    ghost written = { λ m. Some m.written };

    ghost read_faults = { λ m. m.read_faults };

    ghost write_faults = { λ m. m.write_faults };

    ghost sure = { λ _ _. false };

    ghost sure_rest = { λ _. false };

    fn open_read(&mut self, name: &str) -> Result<(), Failed>
        ensures exactly { IsErr result
            ↔ (Contains self.old.fails self.old.calls ⊎ IsNone (lookup name.now self.old.files)) }
        ensures ok { OnOk result (IsSomeAnd (lookup name.now self.old.files)
            (λ bytes. self.new
            ≡ record self.old { rest = bytes; calls = next_count self.old.calls })) }
        ensures err { OnErr result (self.new ≡ record self.old {
          rest = [];
          calls = next_count self.old.calls;
          read_faults = next_count self.old.read_faults;
        }) }
        ensures cause { HasCause self.old.read_faults self.new.read_faults result }
    {
        self.opened = self.files.len();
        self.at = 0;
        if !is_due(&self.fails, &mut self.calls)
            && let Some(opened) = find(&self.files, name)
        {
            self.opened = opened;
            return Ok(());
        }
        self.read_faults = self.read_faults.saturating_add(1);
        Err(Failed)
    }

    fn read(&mut self, into: &mut [u8]) -> Result<usize, Failed>
        ensures exactly { IsErr result ↔ Contains self.old.fails self.old.calls }
        ensures ok { IfOk result
            (λ n. (n ≡ min self.old.piece (min (length into.new) (length self.old.rest)))
            × (into.new ≡ take n self.old.rest ++ drop n into.old)
            × (self.new ≡ record self.old {
              rest = drop n self.old.rest;
              calls = next_count self.old.calls;
              given = count_on self.old.given n;
            })) }
        ensures err { OnErr result ((into.new ≡ into.old) × (self.new ≡ record self.old {
          calls = next_count self.old.calls;
          read_faults = next_count self.old.read_faults;
        })) }
        ensures end { IfOk result (λ n. n ≡ 0 → 0 < length into.new → self.new.rest ≡ []) }
        ensures cause { HasCause self.old.read_faults self.new.read_faults result }
    {
        if is_due(&self.fails, &mut self.calls) {
            self.read_faults = self.read_faults.saturating_add(1);
            return Err(Failed);
        }
        let rest = &content(&self.files, self.opened)[self.at..];
        let count = rest.len().min(into.len()).min(self.piece);
        into[..count].copy_from_slice(&rest[..count]);
        self.at += count;
        self.given = self.given.saturating_add(count as u64);
        Ok(count)
    }

    fn open_write(&mut self, name: &str) -> Result<(), Failed>
        ensures listed { Contains self.old.fails self.old.calls → IsErr result }
        ensures only { IsErr result →
            Contains self.old.fails self.old.calls ⊎ Rose self.old.refused self.new.refused }
        ensures ok { OnOk result (self.new ≡ record self.old {
          written = self.old.written ++ record { name = name.now; bytes = [] } ∷ [];
          calls = next_count self.old.calls;
        }) }
        ensures err { OnErr result (self.new ≡ record self.old {
          calls = next_count self.old.calls;
          write_faults = next_count self.old.write_faults;
          refused = self.new.refused;
        }) }
        ensures cause { HasCause self.old.write_faults self.new.write_faults result }
    {
        if is_due(&self.fails, &mut self.calls) {
            self.write_faults = self.write_faults.saturating_add(1);
            return Err(Failed);
        }
        if add(self.alloc, &mut self.written, name).is_err() {
            self.refused = self.refused.saturating_add(1);
            self.write_faults = self.write_faults.saturating_add(1);
            return Err(Failed);
        }
        Ok(())
    }

    fn write(&mut self, piece: &[u8]) -> Result<usize, Failed>
        ensures listed { Contains self.old.fails self.old.calls → IsErr result }
        ensures only { IsErr result →
            Contains self.old.fails self.old.calls ⊎ Rose self.old.refused self.new.refused }
        ensures ok { IfOk result (λ n. (n ≡ min self.old.piece (length piece.now))
            × (self.new ≡ record self.old {
              written = grow_last self.old.written (take n piece.now);
              calls = next_count self.old.calls;
            })) }
        ensures err { OnErr result (self.new ≡ record self.old {
          calls = next_count self.old.calls;
          write_faults = next_count self.old.write_faults;
          refused = self.new.refused;
        }) }
        ensures progress { IfOk result (λ n. 0 < length piece.now → 0 < n) }
        ensures cause { HasCause self.old.write_faults self.new.write_faults result }
    {
        if is_due(&self.fails, &mut self.calls) {
            self.write_faults = self.write_faults.saturating_add(1);
            return Err(Failed);
        }
        let count = piece.len().min(self.piece);
        if grow(&mut self.written, &piece[..count]).is_err() {
            self.refused = self.refused.saturating_add(1);
            self.write_faults = self.write_faults.saturating_add(1);
            return Err(Failed);
        }
        Ok(count)
    }
}
