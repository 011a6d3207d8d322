ghost use Rattle.lustre_right.specs.TickLaws.{ExpectedValues};

/// At each tick of a run there is a value for each name of a system's node, and each name has what the run has.
pub fn expected_values()
    ensures { ExpectedValues }
{}
