ghost use Rattle.c_reading_laws.specs.ReadText.{TextsAgree};

/// What is read from a text, its names resolved, is the program of the text, and it is lawful; the reported error is the
/// text's first error.
#[tactic(auto, using(crate::proofs::lemmas::ReadTexts::texts_agree))]
pub fn texts_agree()
    ensures { TextsAgree }
{}
