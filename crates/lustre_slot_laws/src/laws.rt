ghost use Rattle.lustre_slot_laws.specs.SlotLaws.{SlotsSolve, SlotsTell};

/// Equations hold of instances exactly where the inputs have the values of the row and each slot has the value to which it comes.
#[tactic(auto, using(crate::proofs::lemmas::Least::slots_solve))]
pub fn slots_solve()
    ensures { SlotsSolve }
{}

/// What is said of all instances is what is said of each, in the order in which they are laid out.
#[tactic(auto, using(crate::proofs::lemmas::Told::slots_tell))]
pub fn slots_tell()
    ensures { SlotsTell }
{}
