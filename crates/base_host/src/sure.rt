// A host and a sink that don't fail: the host reads every file that it has. They count what is written, and don't keep it.
ghost use Rattle.std.specs.Prelude.{◌≡◌, ℕ, ◌+◌, ◌-◌, ◌^◌, ◌<◌, ◌≤◌, ◌↔◌, List, [], ◌++◌, take, drop, min, length, Some, None, is_some, true, IfOk, Ok, OnOk, OnErr, IsOk, IsErr, IsNone, IsSomeAnd};
ghost use Rattle.base_host.specs.Faults.{HasCause};
ghost use Rattle.base_host.specs.Files.{lookup};
ghost use Rattle.base_host.specs.Fakes.{next_count, count_on, files_of, SureHostState};

use crate::file_list::{content, find};
use crate::{Failed, Host, Sink};
use std::marker::Model;

/// A host whose writes never fail, and whose reads fail only at the name of a file that it hasn't.
#[derive(Drop)]
pub struct SureHost {
    files: Vec<(String, Vec<u8>)>,
    opened: usize,
    at: usize,
    given: u64,
    read_faults: u64,
    taken: u64,
}

impl Model for SureHost {
    ghost use Rattle.std.specs.Prelude.{◌≤◌, drop, length};
    ghost use Rattle.base_host.specs.Fakes.{SureHostState, files_of, bytes_at};

    ghost Value = { SureHostState };

    ghost view = { λ m. record {
      files = files_of m.files.items;
      rest = drop m.at (bytes_at (files_of m.files.items) m.opened);
      given = m.given;
      read_faults = m.read_faults;
      taken = m.taken;
    } };

    ghost invariant = { λ m. m.at ≤ length (bytes_at (files_of m.files.items) m.opened) };
}

impl SureHost {
    /// A host with these files.
    #[tactic(auto, using(crate::proofs::Pairs::bytes_at_past))]
    pub fn new(files: Vec<(String, Vec<u8>)>) -> SureHost
        ensures { result ≡ record {
          files = files_of files.items;
          rest = [];
          given = 0;
          read_faults = 0;
          taken = 0;
        } }
    {
        let opened = files.len();
        SureHost {
            files,
            opened,
            at: 0,
            given: 0,
            read_faults: 0,
            taken: 0,
        }
    }

    /// How many bytes were written.
    pub fn taken(&self) -> u64
        ensures { result ≡ self.now.taken }
    {
        self.taken
    }
}

impl Host for SureHost {
    ghost files = { λ m. Some m.files };

    ghost rest = { λ m. Some m.rest };

    ghost given = { λ m. m.given };

    ghost written = { λ _. None };

    ghost read_faults = { λ m. m.read_faults };

    ghost write_faults = { λ _. 0 };

    ghost sure = { λ m name. is_some (lookup name m.files) };

    ghost sure_rest = { λ _. true };

    #[tactic(auto, using(crate::proofs::Pairs::bytes_at_past))]
    fn open_read(&mut self, name: &str) -> Result<(), Failed>
        ensures exactly { IsErr result ↔ IsNone (lookup name.now self.old.files) }
        ensures ok { OnOk result (IsSomeAnd (lookup name.now self.old.files)
            (λ bytes. self.new ≡ record self.old { rest = bytes })) }
        ensures err { OnErr result (self.new
            ≡ record self.old { rest = []; read_faults = next_count self.old.read_faults }) }
        ensures cause { HasCause self.old.read_faults self.new.read_faults result }
    {
        self.opened = self.files.len();
        self.at = 0;
        if let Some(opened) = find(&self.files, name) {
            self.opened = opened;
            return Ok(());
        }
        self.read_faults = self.read_faults.saturating_add(1);
        Err(Failed)
    }

    fn read(&mut self, into: &mut [u8]) -> Result<usize, Failed>
        ensures ok { IsOk result }
        ensures moved { IfOk result (λ n. (n ≡ min (length into.new) (length self.old.rest))
            × (into.new ≡ take n self.old.rest ++ drop n into.old)
            × (self.new
            ≡ record self.old { rest = drop n self.old.rest; given = count_on self.old.given n })) }
        ensures end { IfOk result (λ n. n ≡ 0 → 0 < length into.new → self.new.rest ≡ []) }
        ensures cause { HasCause self.old.read_faults self.new.read_faults result }
    {
        let rest = &content(&self.files, self.opened)[self.at..];
        let count = rest.len().min(into.len());
        into[..count].copy_from_slice(&rest[..count]);
        self.at += count;
        self.given = self.given.saturating_add(count as u64);
        Ok(count)
    }

    fn open_write(&mut self, _name: &str) -> Result<(), Failed>
        ensures ok { IsOk result }
        ensures same { self.new ≡ self.old }
        ensures cause { HasCause 0 0 result }
    {
        Ok(())
    }

    fn write(&mut self, piece: &[u8]) -> Result<usize, Failed>
        ensures ok { result ≡ Ok (length piece.now) }
        ensures taken { self.new
            ≡ record self.old { taken = min (self.old.taken + length piece.now) (2 ^ 64 - 1) } }
        ensures cause { HasCause 0 0 result }
    {
        self.taken = self.taken.saturating_add(piece.len() as u64);
        Ok(piece.len())
    }
}

/// A sink that never fails.
#[derive(Drop)]
pub struct SureSink {
    taken: u64,
}

impl Model for SureSink {
    ghost use Rattle.std.specs.Prelude.{ℕ};

    ghost Value = { ℕ };

    ghost view = { λ m. m.taken };
}

impl SureSink {
    /// A sink to which nothing was written.
    pub fn new() -> SureSink
        ensures { result ≡ 0 }
    {
        SureSink { taken: 0 }
    }

    /// How many bytes were written.
    pub fn taken(&self) -> u64
        ensures { result ≡ self.now }
    {
        self.taken
    }
}

impl Sink for SureSink {
    ghost bytes = { λ _. None };

    ghost faults = { λ _. 0 };

    fn put(&mut self, piece: &[u8]) -> Result<usize, Failed>
        ensures ok { result ≡ Ok (length piece.now) }
        ensures taken { self.new ≡ min (self.old + length piece.now) (2 ^ 64 - 1) }
        ensures cause { HasCause 0 0 result }
    {
        self.taken = self.taken.saturating_add(piece.len() as u64);
        Ok(piece.len())
    }
}
