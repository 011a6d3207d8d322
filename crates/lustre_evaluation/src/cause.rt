// Why an expression has no value, in one word.
ghost use Rattle.std.specs.Prelude.{◌≡◌};

use crate::outcome::Unmet;
use lustre_flows::LusWhy;
use std::marker::Model;

/// Why an expression has no value, in one word, so that a result with it is passed in registers. It is seen as the cause.
#[derive(Drop)]
pub(crate) struct Cause {
    code: u64,
}

impl Model for Cause {
    ghost use Rattle.lustre_evaluation.specs.declared.outcome.Unmet.{Unmet};
    ghost use Rattle.lustre_evaluation.specs.Causes.{cause_of};

    ghost Value = { Unmet };

    ghost view = { λ c. cause_of c.code };
}

impl Cause {
    /// It needs this name, which has no value so far.
    #[inline(always)]
    #[tactic(auto, using(crate::proofs::Causes::waits_is))]
    pub(crate) fn waits(name: u32) -> Cause
        ensures { result ≡ Unmet.Waits name }
    {
        Cause {
            code: u64::from(name) + 5,
        }
    }

    /// It needs a name that is not there.
    #[inline(always)]
    pub(crate) fn never() -> Cause
        ensures { result ≡ Unmet.Never }
    {
        Cause { code: 4 }
    }

    /// It is undefined.
    #[inline(always)]
    pub(crate) fn fails(why: LusWhy) -> Cause
        ensures { result ≡ Unmet.Fails why }
    {
        match why {
            LusWhy::Overflow => Cause { code: 0 },
            LusWhy::ZeroDivisor => Cause { code: 1 },
            LusWhy::Pre => Cause { code: 2 },
            LusWhy::Cycle => Cause { code: 3 },
        }
    }

    /// The cause.
    #[inline(always)]
    #[tactic(auto, using(crate::proofs::Causes::waiting_is))]
    pub(crate) fn unmet(&self) -> Unmet
        ensures { result ≡ self.now }
    {
        match self.code {
            0 => Unmet::Fails(LusWhy::Overflow),
            1 => Unmet::Fails(LusWhy::ZeroDivisor),
            2 => Unmet::Fails(LusWhy::Pre),
            3 => Unmet::Fails(LusWhy::Cycle),
            4 => Unmet::Never,
            code => Unmet::Waits((code - 5) as usize),
        }
    }
}
