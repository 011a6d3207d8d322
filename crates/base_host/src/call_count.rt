// Which calls of a fake are to fail.
ghost use Rattle.std.specs.Prelude.{◌≡◌, ◌↔◌, IsTrue, Contains};
ghost use Rattle.base_host.specs.Fakes.{next_count};

// Whether this call is to fail. The count of calls goes up.
pub(crate) fn is_due(fails: &[u64], calls: &mut u64) -> bool
    ensures due { IsTrue result ↔ Contains fails.now calls.old }
    ensures counted { calls.new ≡ next_count calls.old }
{
    let call = *calls;
    *calls = call.saturating_add(1);
    fails.contains(&call)
}
