ghost use Rattle.lustre_rows.specs.ChildLaws.{ChildEquationsHold};

/// The call for a child gives it the tick, its activity and what enters it, and takes the values of its Outports.
pub fn child_equations_hold()
    ensures { ChildEquationsHold }
{}
