ghost use Rattle.emit_system.specs.Agreeing.{EmittedAgree};

/// The profile and the schedule of a system whose code is made agree on its functions.
pub fn emitted_agree()
    ensures { EmittedAgree }
{}
