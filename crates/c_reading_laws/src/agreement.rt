ghost use Rattle.c_reading_laws.specs.Agreement.{FaultsAgree, LimitsAgree, NeedsAgree, ReadingsAgree, RefusalsAgree};

/// The needs that tokens leave say just what a file of the grammar can go on with: tokens pass where some file begins with
/// them and none of them opens anything beyond its limit, a token is refused where no file goes on with it, and one is too deep
/// where a file goes on with it and it opens something beyond its limit.
#[tactic(auto, using(crate::proofs::TokenFaults::needs_agree))]
pub fn needs_agree()
    ensures { NeedsAgree }
{}

/// The first error of tokens is at the first token with which no file of the grammar can go on (`Syntax`), or that opens
/// something beyond its limit (`Deep`), or at the end (`Syntax`); and tokens with no error are a file within the limits.
#[tactic(auto, using(crate::proofs::TokenFaults::faults_agree))]
pub fn faults_agree()
    ensures { FaultsAgree }
{}

/// A program is within the limits on depths and numbers exactly where no token of a text of it opens anything beyond one.
pub fn limits_agree()
    ensures { LimitsAgree }
{}

/// A text is refused by its first line, else at the first error of its tokens, else at the first construct that breaks a static
/// rule.
pub fn refusals_agree()
    ensures { RefusalsAgree }
{}

/// Each text has one reading or one error, and none has both; what is read is lawful.
pub fn readings_agree()
    ensures { ReadingsAgree }
{}
