ghost use Rattle.emit_fused.specs.Laws.{FusedIsLawful, FusedRefines, FusingMindsNoLines};

/// A fused program keeps the static rules and the limits.
pub fn fused_is_lawful()
    ensures { FusedIsLawful }
{}

/// It does at each call what the whole one does, in no more steps.
pub fn fused_refines()
    ensures { FusedRefines }
{}

/// What is fused isn't a matter of lines.
pub fn fusing_minds_no_lines()
    ensures { FusingMindsNoLines }
{}
