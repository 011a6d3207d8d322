ghost use Rattle.c_grammar.specs.ParsedText.{ParsingAgrees};

/// What the parse by recursive descent gives is spelled by the tokens, which then have no error; the error that it gives is the
/// first error of the tokens.
#[tactic(auto, using(crate::proofs::lemmas::File::parsing_agrees))]
pub fn parsing_agrees()
    ensures { ParsingAgrees }
{}
