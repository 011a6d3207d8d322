ghost use Rattle.std.specs.Prelude.{◌≡◌, ◌<◌, ℕ};
ghost use Rattle.c_semantics.specs.Values.{gives, stuck_at};
ghost use Rattle.c_interpreter.specs.Answers.{judged};
ghost use Rattle.c_interpreter.specs.Halts.{why_of};

use c_syntax::{Stuck, Why};
use std::marker::Model;

/// A place where the machine is stuck, in one word, so that a result with it is passed in registers. It is seen as the place.
#[derive(Drop)]
pub(crate) struct Halt {
    code: u64,
}

impl Model for Halt {
    ghost use Rattle.std.specs.Prelude.{◌<◌, ◌^◌};
    ghost use Rattle.c_syntax.specs.declared.fault.Stuck.{Stuck};
    ghost use Rattle.c_interpreter.specs.Halts.{stuck_of};

    ghost Value = { Stuck };

    ghost view = { λ h. stuck_of h.code };

    ghost invariant = { λ h. h.code < 2 ^ 35 };
}

impl Halt {
    /// A line where the machine is stuck, and why.
    #[inline(always)]
    #[tactic(auto, using(crate::proofs::Halting::stuck_is))]
    pub(crate) fn at(line: u32, why: Why) -> Halt
        ensures { result ≡ stuck_at line why }
    {
        Halt {
            code: u64::from(line) * 8 + code_of(why),
        }
    }

    /// The place.
    pub(crate) fn place(&self) -> Stuck
        ensures { result ≡ self.now }
    {
        Stuck {
            line: (self.code / 8) as u32,
            why: why_of(self.code % 8),
        }
    }
}

/// What a condition comes to. It is passed in registers too, as a result with a truth value is not.
#[derive(Drop)]
pub(crate) enum Verdict {
    Holds,
    Fails,
    Halts(Halt),
}

/// What a condition comes to that holds or does not.
#[inline(always)]
pub(crate) fn verdict_of(holds: bool) -> Verdict
    ensures { (steps : ℕ) → judged result steps ≡ gives holds steps }
{
    if holds {
        Verdict::Holds
    } else {
        Verdict::Fails
    }
}

#[inline(always)]
fn code_of(why: Why) -> u64
    ensures same { why_of result ≡ why }
    ensures small { result < 8 }
{
    match why {
        Why::Overflow => 0,
        Why::ZeroDivisor => 1,
        Why::Range => 2,
        Why::Steps => 3,
        Why::Index => 4,
    }
}

fn why_of(code: u64) -> Why
    ensures { result ≡ why_of code }
{
    match code {
        0 => Why::Overflow,
        1 => Why::ZeroDivisor,
        2 => Why::Range,
        3 => Why::Steps,
        _ => Why::Index,
    }
}
