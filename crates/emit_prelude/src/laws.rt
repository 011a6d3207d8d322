ghost use Rattle.emit_prelude.specs.Rules.{WholeNumbersStay};

/// Every rounding rule leaves a whole number as it is.
pub fn whole_numbers_stay()
    ensures { WholeNumbersStay }
{}
