ghost use Rattle.diagram_same.specs.Laws.{FirstsAreOne, InnerAreSame, SameIsEquivalence};

/// Each subsystem is the same as itself; of two that are the same each is the same as the other; and what is the same as a
/// second one is the same as all that this is the same as.
pub fn same_is_equivalence()
    ensures { SameIsEquivalence }
{}

/// The subsystems at one place inside two that are the same are the same.
pub fn inner_are_same()
    ensures { InnerAreSame }
{}

/// A diagram has one list of first subsystems.
pub fn firsts_are_one()
    ensures { FirstsAreOne }
{}
