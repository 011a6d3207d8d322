ghost use Rattle.std.specs.Prelude.{◌≡◌};
ghost use Rattle.base_refusals.specs.Refusals.{plain_refusal};
ghost use Rattle.mdl_blocks.specs.Faults.{refusal_at};

use base_core::ParamName;
use base_refusals::Refusal;

/// What is wrong with a block. Of several errors the first in this order is reported, and of several parameters out of form the
/// first in the order of its type's parameters, where its name comes first.
#[derive(Clone, Copy, Debug, PartialEq, Eq, Drop)]
pub enum Fault {
    /// F7: its BlockType is none that is read, or it is a subsystem without a System.
    Unsupported,
    /// F8: the text of this parameter is not of its form, or it has no name.
    Parameter(ParamName),
    /// F15: a period 0.
    Continuous,
    /// F16: a floating-point type.
    FloatType,
}

impl Fault {
    /// The refusal of a file for this error of the block whose section is opened at this line.
    pub fn refusal_at(self, line: u32) -> Refusal
        ensures { plain_refusal result ≡ refusal_at line self }
    {
        match self {
            Fault::Unsupported => Refusal::Unsupported { line },
            Fault::Parameter(name) => Refusal::Parameter { line, name },
            Fault::Continuous => Refusal::Continuous { line },
            Fault::FloatType => Refusal::FloatType { line },
        }
    }
}
