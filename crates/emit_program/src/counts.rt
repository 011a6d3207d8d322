ghost use Rattle.std.specs.Prelude.{◌≡◌, ◌<◌, ◌^◌, length, sum_by};

use modules_profile::Profile;

/// How many functions some profiles have together.
pub(crate) fn function_count(profiles: &[Profile]) -> u32
    requires { sum_by (λ p. length p.functions) profiles.now < 2 ^ 32 }
    ensures { result ≡ sum_by (λ p. length p.functions) profiles.now }
{
    let mut count = 0;
    for profile in profiles {
        count += profile.functions.len() as u32;
    }
    count
}
