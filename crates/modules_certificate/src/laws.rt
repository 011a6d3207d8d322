ghost use Rattle.modules_certificate.specs.Sound.{CertifiedAreLeast};

use base_core::needs_are_least;

/// Where a certificate is sound for the needs of some outputs, every exact interface for them has at least as many
/// output functions as the certificate has representatives.
pub fn certified_are_least()
    ensures { CertifiedAreLeast }
{
    needs_are_least()
}
