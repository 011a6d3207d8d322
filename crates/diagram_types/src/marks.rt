ghost use Rattle.std.specs.Prelude.{◌≡◌};
ghost use Rattle.diagram_types.specs.Marks as known;

use base_fixed_point::FixType;

/// What is known of a row while rules are followed.
#[derive(Clone, Copy, Debug, PartialEq, Eq, Drop)]
pub(crate) enum Mark {
    /// Nothing yet.
    New,
    /// It is on the path that is followed.
    OnPath,
    /// The type that is met first from it, or that none is.
    Settled(Option<FixType>),
}

/// The mark of a row; from past the end no type is met.
pub(crate) fn mark_at(marks: &[Mark], b: usize) -> Mark
    ensures { result ≡ known.mark_at marks.now b }
{
    marks.get(b).copied().unwrap_or(Mark::Settled(None))
}

/// Whether nothing is known yet.
pub(crate) fn is_new(mark: Mark) -> bool
    ensures { result ≡ known.is_new mark }
{
    matches!(mark, Mark::New)
}

/// The type that is met from a row with this mark; from a row on the path itself none is, since rules go round.
pub(crate) fn met_by(mark: Mark) -> Option<FixType>
    ensures { result ≡ known.met_by mark }
{
    match mark {
        Mark::New | Mark::OnPath => None,
        Mark::Settled(met) => met,
    }
}
