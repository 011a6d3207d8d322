ghost use Rattle.lustre_right.specs.SystemLaws.{SystemsHold, WholeBySystems};

/// What solves the equations of a model's file solves those of its root and, at the path of each system, those of the system's
/// node: a call of a function gives what its node gives, and a call for a child ties its names to those of the child's instance.
pub fn systems_hold()
    ensures { SystemsHold }
{}

/// What solves the equations of a model's file has a value for each name, where the root counts and the names of each system
/// and the arguments of its calls have values.
pub fn whole_by_systems()
    ensures { WholeBySystems }
{}
