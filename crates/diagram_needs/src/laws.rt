ghost use Rattle.diagram_needs.specs.LoopLaws.{LoopIsToldOrNone, ToldLoopIsOne};

/// A diagram has no loop, or one that is reported: the first in order of the shortest through the least row on any.
pub fn loop_is_told_or_none()
    ensures { LoopIsToldOrNone }
{}

/// At most one loop is reported.
pub fn told_loop_is_one()
    ensures { ToldLoopIsOne }
{}
