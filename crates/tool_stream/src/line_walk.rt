// What is done with each line of a file.
ghost use Rattle.std.specs.Prelude.{◌≡◌, ◌+◌, ◌<◌, ◌≤◌, ◌++◌, ℕ, List, length, OnOk, OnErr, MatchResult};
ghost use Rattle.base_host.specs.Faults.{HasCause};
ghost use Rattle.base_host.specs.Files.{PutsFront};
ghost use Rattle.base_host.specs.Buffers.{PutsAllBut};

use base_host::{Failed, PutBuffer, Sink};

/// What is done with each line of a file: the line is read, a machine takes a step, and its output is printed.
///
/// What a line does is said by ghost members. A walk is over 4,294,967,295 lines at most.
pub trait LineWalk {
    /// What the lines run on.
    type Machine;

    /// Why a line ends the walk.
    type Stop: Drop;

    /// Whether a line may come.
    ghost ready: { Self × Self.Machine → Type 0 };

    /// How many lines were walked over.
    ghost count: { Self → ℕ };

    /// A line was walked over.
    ghost steps: { Self × Self.Machine → List ℕ → Self × Self.Machine → Type 0 };

    /// A line ended the walk, for this cause.
    ghost stops: { Self × Self.Machine → List ℕ → Self.Stop → Self × Self.Machine → Type 0 };

    /// The output of the line that was walked over last.
    ghost said: { Self → List ℕ };

    /// Walks over a line, which is given without its end.
    fn line(&mut self, machine: &mut Self::Machine, line: &[u8]) -> Result<(), Self::Stop>
        requires ready { ready (self.old, machine.old) }
        requires few { count self.old ≤ 4294967295 }
        ensures walked { MatchResult result
            (λ _. steps (self.old, machine.old) line.now (self.new, machine.new))
            (λ stop. stops (self.old, machine.old) line.now stop (self.new, machine.new)) }
        ensures ready { OnOk result (ready (self.new, machine.new)) }
        ensures counted { OnOk result (count self.new ≡ count self.old + 1) }
        ensures few { OnOk result (count self.new ≤ 4294967295) };

    /// Why a line of more than 4,096 bytes without its end ends the walk.
    fn too_long(&self) -> Self::Stop
        requires few { count self.now ≤ 4294967295 }
        ensures { (machine : Self.Machine) (line : List ℕ) → 4096 < length line →
            stops (self.now, machine) line result (self.now, machine) };

    /// Prints the output of the line that was walked over last, or lets it wait.
    ///
    /// Fails only where the sink counted an error. Then a front of what waited and of the output was printed, and the rest is lost.
    fn print<S: Sink>(&self, lines: &mut PutBuffer, sink: &mut S) -> Result<(), Failed>
        ensures taken { OnOk result
            (PutsAllBut lines.new (lines.old ++ said self.now) (S.bytes sink.old) (S.bytes sink.new)) }
        ensures front { OnErr result
            (PutsFront (S.bytes sink.old) (S.bytes sink.new) (lines.old ++ said self.now)) }
        ensures cause { HasCause (S.faults sink.old) (S.faults sink.new) result };
}
