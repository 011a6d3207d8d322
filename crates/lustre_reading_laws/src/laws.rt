ghost use Rattle.lustre_grammar.specs.FaultLaws.{FaultlessIsSpelled};
ghost use Rattle.lustre_reading_laws.specs.ReadingLaws.{ReadingsAreLawful, TextsAreJudged};

/// The tokens of a text have no error exactly where they spell a file whose expressions are within the limit on depth.
pub fn faultless_is_spelled()
    ensures { FaultlessIsSpelled }
{}

/// Each text has one reading or one first error, and none has both.
pub fn texts_are_judged()
    ensures { TextsAreJudged }
{}

/// What is read from a text keeps the static rules and the limit on depth.
pub fn readings_are_lawful()
    ensures { ReadingsAreLawful }
{}
