ghost use Rattle.mdl_blocks.specs.FirstFaults.{TellsFirstParameter};

/// Of a block of a type that is read, and a subsystem with a System, the first parameter without a text of its form is
/// reported, in the order of the table of the parameters of its type, and nothing else.
#[tactic(auto, using(crate::proofs::FirstFaultLemmas::first_told))]
pub fn the_first_parameter_is_told()
    ensures { TellsFirstParameter }
{}
