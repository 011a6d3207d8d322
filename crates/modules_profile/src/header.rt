ghost use Rattle.std.specs.Prelude.{◌≡◌};
ghost use Rattle.modules_profile.specs.Headers.{header_functions};

use crate::{Function, Header};
use base_core::Control;
use base_fixed_point::FixType;

impl Header {
    /// How the system is controlled.
    pub(crate) fn control(&self) -> Control
        ensures { result ≡ self.now.control }
    {
        self.control
    }

    /// Its outputs by port, each with its Outport row.
    pub(crate) fn outputs(&self) -> &[(u32, FixType)]
        ensures { result.now ≡ self.now.outputs }
    {
        self.outputs.as_slice()
    }

    /// Its output functions by number.
    pub(crate) fn functions(&self) -> &[Function]
        ensures { result.now ≡ header_functions self.now }
    {
        self.profile.functions.as_slice()
    }
}
