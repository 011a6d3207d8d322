ghost use Rattle.std.specs.Prelude.{◌≡◌};
ghost use Rattle.emit_inlined.specs.Steps.{param_in};

/// Which parameters code reads in place of its own.
#[derive(Drop)]
pub(crate) enum Params {
    /// Each itself.
    Itself,
    /// By position those that a call passes on.
    Passed(Vec<u32>),
}

/// The parameter that is read in place of another.
pub(crate) fn param_of(params: &Params, param: u32) -> u32
    ensures { result ≡ param_in params.now param }
{
    match params {
        Params::Itself => param,
        Params::Passed(passed) => match passed.get(param as usize) {
            Some(other) => *other,
            None => 0,
        },
    }
}
