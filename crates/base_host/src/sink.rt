// What bytes are written to, one piece after another.
ghost use Rattle.std.specs.Prelude.{◌≡◌, ℕ, ◌<◌, ◌≤◌, List, take, length, Option, IfOk, MatchResult};
ghost use Rattle.std.specs.Io.KnownBytes.{append_known};
ghost use Rattle.base_host.specs.Faults.{HasCause};

use crate::Failed;

/// What bytes are written to, as standard output.
///
/// A call that fails changes nothing but the count of the errors.
pub trait Sink {
    /// The bytes that were written, where they are known.
    ghost bytes: { Self → Option (List ℕ) };

    /// How many calls have failed.
    ghost faults: { Self → ℕ };

    /// Takes bytes from the front of `piece`, and says how many. It takes one at least, where there is one.
    fn put(&mut self, piece: &[u8]) -> Result<usize, Failed>
        ensures bound { IfOk result (λ n. n ≤ length piece.now) }
        ensures progress { IfOk result (λ n. 0 < length piece.now → 0 < n) }
        ensures bytes { MatchResult result
            (λ n. bytes self.new ≡ append_known (bytes self.old) (take n piece.now))
            (λ _. bytes self.new ≡ bytes self.old) }
        ensures cause { HasCause (faults self.old) (faults self.new) result };
}
