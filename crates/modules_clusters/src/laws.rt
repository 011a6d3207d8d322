ghost use Rattle.modules_clusters.specs.Classes.{DifferentGrow};

/// A member at the end of a list is a new one among the different ones where it is none of those before it.
pub fn different_grow()
    ensures { DifferentGrow }
{}
