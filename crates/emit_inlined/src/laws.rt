ghost use Rattle.emit_inlined.specs.Laws.{InlinedIsLawful, InlinedRefines, InliningMindsNoLines};

/// A program without its helpers keeps the static rules and the limits.
pub fn inlined_is_lawful()
    ensures { InlinedIsLawful }
{}

/// It does the same, in no more steps, at each call of a procedure that stays.
pub fn inlined_refines()
    ensures { InlinedRefines }
{}

/// Which bodies go where isn't a matter of lines.
pub fn inlining_minds_no_lines()
    ensures { InliningMindsNoLines }
{}
