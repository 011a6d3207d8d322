ghost use Rattle.std.specs.Prelude.{◌≡◌};
ghost use Rattle.diagram_needs.specs.Least.{lesser_of};

// The lesser of what was found and `b`.
pub(crate) fn lesser(found: Option<u32>, b: u32) -> u32
    ensures { result ≡ lesser_of found b }
{
    match found {
        None => b,
        Some(a) => a.min(b),
    }
}
