// Files by name, as a tool reads and writes them.
ghost use Rattle.std.specs.Prelude.{◌≡◌, ℕ, ◌<◌, ◌≤◌, List, Bool, true, IsOk, [], take, length, Option, Some, option_map, IsSome, IfSome, IfOk, OnOk, OnErr, MatchResult};
ghost use Rattle.std.specs.Io.KnownBytes.{prepend_known, IsAtEnd};
ghost use Rattle.base_host.specs.Faults.{HasCause};
ghost use Rattle.base_host.specs.Files.{File, OnFile, lookup, add_file, grow_file};
ghost use Rattle.base_host.specs.Reading.{RoseBy};

/// A call of a host or a sink failed, and the count of its errors says so.
#[derive(Clone, Copy, Debug, PartialEq, Eq)]
pub struct Failed;

/// Files that are read and written by name, one at a time each way.
///
/// What a host holds is said by ghost members: the contracts speak of them, and no code reads them. A call
/// that fails changes nothing but the count of its errors, and `open_read` leaves nothing to read besides. The count of
/// the bytes that were given rises by `read` alone.
pub trait Host {
    /// The files that can be read, where they are known.
    ghost files: { Self → Option (List File) };

    /// The unread bytes of the file that is being read, where they are known.
    ghost rest: { Self → Option (List ℕ) };

    /// How many bytes reads have given.
    ghost given: { Self → ℕ };

    /// The files that were written, where they are known.
    ghost written: { Self → Option (List File) };

    /// How many calls that read have failed.
    ghost read_faults: { Self → ℕ };

    /// How many calls that write have failed.
    ghost write_faults: { Self → ℕ };

    /// Whether it is sure that the file of a name can be read to its end without an error.
    ghost sure: { Self → List ℕ → Bool };

    /// Whether it is sure of the rest of the file that is being read.
    ghost sure_rest: { Self → Bool };

    /// Begins to read the first file of that name. A missing file is an error.
    fn open_read(&mut self, name: &str) -> Result<(), Failed>
        ensures opened { OnOk result (OnFile (files self.old) (rest self.old) name.now
            (λ bytes. rest self.new ≡ Some bytes)) }
        ensures there { OnOk result (IfSome (files self.old) (λ fs. IsSome (lookup name.now fs))) }
        ensures closed { OnErr result (rest self.new ≡ option_map (λ _. []) (rest self.old)) }
        ensures given { given self.new ≡ given self.old }
        ensures cause { HasCause (read_faults self.old) (read_faults self.new) result }
        ensures sure { sure self.old name.now ≡ true → IsOk result × (sure_rest self.new ≡ true) }
        ensures files { files self.new ≡ files self.old }
        ensures written { written self.new ≡ written self.old }
        ensures write_faults { write_faults self.new ≡ write_faults self.old };

    /// Moves the next bytes of the file to the front of `into`, and says how many. Where `into` has room, 0 says
    /// that the file is at its end.
    fn read(&mut self, into: &mut [u8]) -> Result<usize, Failed>
        ensures bound { IfOk result (λ n. n ≤ length into.new) }
        ensures bytes { MatchResult result
            (λ n. rest self.old ≡ prepend_known (take n into.new) (rest self.new))
            (λ _. rest self.new ≡ rest self.old) }
        ensures given { MatchResult result
            (λ n. RoseBy n (given self.old) (given self.new))
            (λ _. given self.new ≡ given self.old) }
        ensures sure { sure_rest self.old ≡ true → IsOk result × (sure_rest self.new ≡ true) }
        ensures end { IfOk result (λ n. n ≡ 0 → 0 < length into.new → IsAtEnd (rest self.new)) }
        ensures cause { HasCause (read_faults self.old) (read_faults self.new) result }
        ensures files { files self.new ≡ files self.old }
        ensures written { written self.new ≡ written self.old }
        ensures write_faults { write_faults self.new ≡ write_faults self.old };

    /// Begins to write an empty file of that name.
    fn open_write(&mut self, name: &str) -> Result<(), Failed>
        ensures opened { OnOk result (written self.new ≡ add_file (written self.old) name.now []) }
        ensures unwritten { OnErr result (written self.new ≡ written self.old) }
        ensures cause { HasCause (write_faults self.old) (write_faults self.new) result }
        ensures files { files self.new ≡ files self.old }
        ensures rest { rest self.new ≡ rest self.old }
        ensures given { given self.new ≡ given self.old }
        ensures read_faults { read_faults self.new ≡ read_faults self.old };

    /// Appends bytes from the front of `piece` to the file that was opened last, and says how many. It takes one
    /// at least, where there is one.
    fn write(&mut self, piece: &[u8]) -> Result<usize, Failed>
        ensures bound { IfOk result (λ n. n ≤ length piece.now) }
        ensures progress { IfOk result (λ n. 0 < length piece.now → 0 < n) }
        ensures bytes { MatchResult result
            (λ n. written self.new ≡ grow_file (written self.old) (take n piece.now))
            (λ _. written self.new ≡ written self.old) }
        ensures cause { HasCause (write_faults self.old) (write_faults self.new) result }
        ensures files { files self.new ≡ files self.old }
        ensures rest { rest self.new ≡ rest self.old }
        ensures given { given self.new ≡ given self.old }
        ensures read_faults { read_faults self.new ≡ read_faults self.old };
}
