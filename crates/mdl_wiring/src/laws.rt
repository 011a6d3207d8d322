ghost use Rattle.mdl_wiring.specs.Laws.{EachInputHasOneLine, EachInputHasOneSource};

/// Of a system in which nothing is refused, exactly one line end leads to each data input, enable and trigger of each block.
#[tactic(auto, using(crate::proofs::LineLemmas::one_line))]
pub fn each_input_has_one_line()
    ensures { EachInputHasOneLine }
{}

/// Of a system in which nothing is refused, each block has as many sources as data inputs, enable and trigger.
#[tactic(auto, using(crate::proofs::SourceLemmas::one_source))]
pub fn each_input_has_one_source()
    ensures { EachInputHasOneSource }
{}
